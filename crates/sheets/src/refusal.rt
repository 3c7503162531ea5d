// Why no sheet was written.
ghost use Rattle.std.specs.Prelude.{◌≡◌};
ghost use Rattle.sheets.specs.Sheet.{number};

#[derive(Clone, Copy, Debug, PartialEq, Eq)]
pub enum Refusal {
    OutputTooShort = 6,
}

impl Refusal {
    // The number by which the refusal is known.
    // A From for u8 would not say which number is meant, and a trait would have this body for each enum: neither is plainer.
    pub fn number(self) -> u8
        ensures { result ≡ number self }
    {
        self as u8
    }
}
