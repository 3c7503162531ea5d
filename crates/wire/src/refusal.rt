// Why a writer wrote nothing.
ghost use Rattle.std.specs.Prelude.{◌≡◌};
ghost use Rattle.wire.specs.Writes.{number, refusal};

#[derive(Clone, Copy, Debug, PartialEq, Eq)]
pub enum Refusal {
    PayloadLength = 11,
    Body = 12,
    OutputTooShort = 13,
}

impl Refusal {
    // The number by which the refusal is known.
    // A From for u8 would not say which number is meant, and a trait would have this body for each enum: neither is plainer.
    pub fn number(self) -> u8
        ensures number { result ≡ number self }
        ensures back { refusal result ≡ self }
    {
        self as u8
    }
}
