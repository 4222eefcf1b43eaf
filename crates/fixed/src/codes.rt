// The codes of the device spaces.
ghost use Rattle.std.specs.Prelude.{◌≡◌};
ghost use Rattle.fixed.specs.Bytes.{device};

// Whether a number is the code of a device space.
pub fn is_device(n: u32) -> bool
    ensures { result ≡ device n }
{
    matches!(n, 0xFF01 | 0xFF03 | 0xFF04)
}
