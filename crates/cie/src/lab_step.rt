// Lab. Which branch is taken is decided on whole numbers, for any l, a and b.
ghost use Rattle.std.specs.Prelude.{◌≡◌, T};
ghost use Rattle.std.specs.Float.{binary64};
ghost use Rattle.std.specs.Float.Ieee.{in_float};
ghost use Rattle.cie.specs.Steps.{share, lab_xyz};

use crate::Xyz;

// The cube of v / top where the test passed, and low / bottom where it did not.
#[tactic(auto, unfolding(crate::specs::Steps::share))]
fn share_of(t: bool, v: i64, top: f64, low: i64, bottom: f64) -> f64
    requires { T (in_float binary64 v) × T (in_float binary64 low) }
    ensures { result ≡ share t v top low bottom }
{
    if t {
        let x = (v as f64) / top;
        x * x * x
    } else {
        (low as f64) / bottom
    }
}

// The colour (l, a, b), in millionths, under a white point.
pub fn lab(w: Xyz, l: i32, a: i32, b: i32) -> Xyz
    ensures { result ≡ lab_xyz w l a b }
{
    let m = (l as i64) + 16000000;
    let p = 125 * m + 29 * (a as i64);
    let n = 50 * m - 29 * (b as i64);
    let x = share_of(
        p >= 3000000000,
        p,
        14500000000.0,
        108 * (p - 2000000000),
        12194500000000.0,
    );
    let y = share_of(
        l >= 8000000,
        m,
        116000000.0,
        108 * (l as i64),
        97556000000.0,
    );
    let z = share_of(
        n >= 1200000000,
        n,
        5800000000.0,
        108 * (n - 800000000),
        4877800000000.0,
    );
    Xyz {
        x: w.x * x,
        y,
        z: w.z * z,
    }
}
