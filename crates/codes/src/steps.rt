// Document 01, "Stepped": value = start + step × code, and a figure at the nearest code.
ghost use Rattle.std.specs.Prelude.{◌≡◌, false, ◌*◌, ◌^◌, ◌<◌, nat_abs};
ghost use Rattle.std.specs.Int.Signed.{lt_z};
ghost use Rattle.codes.specs.Rules.{stepped_value, stepped_code};

use integers::{difference, minus, nearest_whole, plus};

// start + step × code.
pub fn step_value(start: i64, step: u64, code: u64) -> i64
    requires { (nat_abs start < 2 ^ 62) × (step * code < 2 ^ 62) }
    ensures { result ≡ stepped_value start step code }
{
    difference(plus(start) + step * code, minus(start))
}

// (figure − start) / step to the nearest, halves upward, for a figure not below the start.
pub fn step_code(start: i64, step: u64, figure: i64) -> u64
    requires { (0 < step) × (lt_z figure start ≡ false) }
    ensures { result ≡ stepped_code start step figure }
{
    let up = plus(figure) + minus(start);
    let down = plus(start) + minus(figure);
    nearest_whole(up - down, step)
}
