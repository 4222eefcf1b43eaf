// A row of a table of names.
ghost use Rattle.std.specs.Prelude.{◌≤◌};

// A name and its number, which is not 0.
pub(crate) struct Row {
    pub(crate) name: &'static [u8],
    pub(crate) number: u8,
    ghost known: { (1 ≤ number) × (number ≤ 10) },
}
