// Document 01, "Reading": the physical figure.
ghost use Rattle.std.specs.Prelude.{◌≡◌, not, ◌^◌, ◌≤◌, T, nat_abs};
ghost use Rattle.std.specs.Float.Ieee.{is_nan};
ghost use Rattle.figures.specs.Figure.{float_fraction, physical_figure};

// q / 1,000,000,000, in f64, rounded once. An f64 holds every q that a reading can return.
pub fn float_fraction(q: i64) -> f64
    requires { nat_abs q ≤ 2 ^ 53 }
    ensures { result ≡ float_fraction q }
{
    q as f64 / 1_000_000_000.0
}

// least + (greatest − least) × fraction, in f64, each
// operation rounded once. The two Singles are not NaN.
pub fn physical_figure(least: f32, greatest: f32, fraction: f64) -> f64
    requires t { T (not (is_nan least)) }
    requires t_2 { T (not (is_nan greatest)) }
    ensures { result ≡ physical_figure least greatest fraction }
{
    let low = least as f64;
    let high = greatest as f64;
    low + (high - low) * fraction
}
