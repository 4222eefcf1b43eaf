// The float of a number.
ghost use Rattle.std.specs.Prelude.{◌≡◌};
ghost use Rattle.fixed.specs.Numbers.{float};

// v millionths as a float: v as f64, divided by 1000000.0.
pub fn float_of(v: i32) -> f64
    ensures { result ≡ float v }
{
    (v as f64) / 1000000.0
}
