// Document 02, Note 11: the float fraction of a curve, in f64. The terms of a segment are added
// in order, exponents rising, and the fraction is computed "by the nested rule from the highest
// power". `float_fraction` requires at most six powers; `Powers::with` never keeps more.
ghost use Rattle.std.specs.Prelude.{◌≡◌, ◌≤◌, take};
ghost use Rattle.correction.specs.Curve.{nested, argument as argument_of, fraction_by};
ghost use Rattle.correction.specs.Powers.{no_powers, with_power, up_to_highest};

// The coefficients of powers 0 to 5, 0 for an absent
// one, and the number of powers up to the highest.
#[derive(Clone, Copy)]
pub struct Powers {
    pub coefficients: [f64; 6],
    pub count: u64,
}

impl Powers {
    // The powers of no term.
    pub fn none() -> Powers
        ensures { result ≡ no_powers }
    {
        Powers {
            coefficients: [0.0; 6],
            count: 0,
        }
    }

    // One more term, of a higher exponent than those before
    // it. A term whose exponent is above 5 is ignored.
    pub fn with(self, power: u64, coefficient: f32) -> Powers
        ensures { result ≡ with_power self power coefficient }
    {
        if power < 6 {
            let mut coefficients = self.coefficients;
            coefficients[power as usize] = std::num::f32_to_f64_with_nan(coefficient);
            return Powers {
                coefficients,
                count: power + 1,
            };
        }
        self
    }
}

// p billionths of the span in per cent: one division of p,
// which is exact in an f64 up to 2^53 and else rounded.
fn argument(p: i64) -> f64
    ensures { result ≡ argument_of p }
{
    std::num::nearest_i64_to_f64(p) / 10_000_000.0
}

// The correction at x by the nested rule, from the highest of `count` powers.
fn correction(coefficients: [f64; 6], count: usize, x: f64) -> f64
    requires { count ≤ 6 }
    ensures { result ≡ nested x (take count coefficients) }
{
    if count == 0 {
        return 0.0;
    }
    let mut sum = coefficients[count - 1];
    let mut done: usize = 1;
    while done < count {
        sum = sum * x + coefficients[count - 1 - done];
        done += 1;
    }
    sum
}

// Argument plus correction, divided once by 100.
pub fn float_fraction(powers: Powers, p: i64) -> f64
    requires { powers.count ≤ 6 }
    ensures { result ≡ fraction_by (up_to_highest powers) p }
{
    let coefficients = powers.coefficients;
    let x = argument(p);
    (x + correction(coefficients, powers.count as usize, x)) / 100.0
}
