// Why a card refuses a call; a refused call changes nothing.
ghost use Rattle.std.specs.Prelude.{◌≡◌};
ghost use Rattle.card.specs.declared.refusal.Refusal.TheVariants.{SheetTooShort, Memory};
ghost use Rattle.card.specs.Wholes.{number_of};

#[derive(Clone, Copy, PartialEq, Eq, Debug)]
pub enum Refusal {
    SendTooLong,
    ReplyTooShort,
    SheetTooShort,
    Memory(memory::Refusal),
}

impl From<memory::Refusal> for Refusal {
    ghost from_gives = { λ refusal mine. mine ≡ Memory refusal };

    fn from(refusal: memory::Refusal) -> Refusal {
        Refusal::Memory(refusal)
    }
}

impl From<sheets::Refusal> for Refusal {
    ghost from_gives = { λ refusal mine. mine ≡ SheetTooShort };

    fn from(refusal: sheets::Refusal) -> Refusal {
        match refusal {
            sheets::Refusal::OutputTooShort => Refusal::SheetTooShort,
        }
    }
}

impl Refusal {
    // The number under which the refusal is known on the bench.
    pub fn number(self) -> u8
        ensures { result ≡ number_of self }
    {
        // By cases, and no trait or From, for one case holds a memory's refusal, which has the number.
        match self {
            Refusal::SendTooLong => 1,
            Refusal::ReplyTooShort => 2,
            Refusal::SheetTooShort => 6,
            Refusal::Memory(refusal) => refusal.number(),
        }
    }
}
