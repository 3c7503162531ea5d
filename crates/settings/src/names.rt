// The five sections and the five messages by name.
ghost use Rattle.std.specs.Prelude.{◌≡◌};
ghost use Rattle.std.specs.Option.{ok_or};
ghost use Rattle.settings.specs.Names.{place, number, section_at, unknown_section};

// A section of the settings, kept as one string.
#[derive(Clone, Copy, PartialEq, Eq, Debug)]
pub enum Section {
    Port = 0,
    Messages = 1,
    Navigation = 3,
    Pulse = 4,
    Group = 5,
}

// A message that goes out at some fixes.
#[derive(Clone, Copy, PartialEq, Eq, Debug)]
pub enum Message {
    Gga,
    Gll,
    Rmc,
    Zda,
    TimeUtc,
}

impl Section {
    // The five sections in the order of their numbers.
    pub const ALL: [Section; 5] = [
        Section::Port,
        Section::Messages,
        Section::Navigation,
        Section::Pulse,
        Section::Group,
    ];

    // The number by which a memory knows the section; a From for u8 would be no plainer: it would not say which number is meant.
    pub fn number(self) -> u8
        ensures { result ≡ number self }
    {
        self as u8
    }
}

// A number that no section has.
#[derive(Clone, Copy, PartialEq, Eq, Debug)]
pub struct UnknownSection(pub u8);

impl TryFrom<u8> for Section {
    type Error = UnknownSection;

    // The section of a number.
    ghost try_from_gives = { λ number r. r ≡ ok_or (section_at number) (unknown_section number) };

    fn try_from(number: u8) -> Result<Section, UnknownSection> {
        match number {
            0 => Ok(Section::Port),
            1 => Ok(Section::Messages),
            3 => Ok(Section::Navigation),
            4 => Ok(Section::Pulse),
            5 => Ok(Section::Group),
            _ => Err(UnknownSection(number)),
        }
    }
}

impl Message {
    // The place of the message's entry in the table; a From for usize would be no plainer: it would not say which place is meant.
    pub fn place(self) -> usize
        ensures { result ≡ place self }
    {
        self as usize
    }
}
