// The last codes of a field.
ghost use Rattle.std.specs.Prelude.{◌≡◌, ◌≤◌};
ghost use Rattle.codes.specs.Rules.{all_ones, top_code};

// The code of all ones in `width` bits.
pub fn all_ones(width: u64) -> u64
    requires { width ≤ 32 }
    ensures { result ≡ all_ones width }
{
    (1 << width) - 1
}

// All ones less one: the greatest code of a stepped or geometric field that has a value.
pub fn top_code(width: u64) -> u64
    requires { (1 ≤ width) × (width ≤ 32) }
    ensures { result ≡ top_code width }
{
    (1 << width) - 2
}
