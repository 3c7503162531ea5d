// What a host can ask of the card.
ghost use Rattle.std.specs.Prelude.{◌≡◌};
ghost use Rattle.std.specs.Option.{ok_or};
ghost use Rattle.commands.specs.Commands.{names_section, all_sections, sections_in, start_at, unknown_start, set_interval, start_by};
ghost use Rattle.commands.specs.Seen.{asked};

use settings::{Interval, Section, Setting};

// A setting that can be asked for.
#[derive(Clone, Copy, PartialEq, Eq, Debug)]
pub enum Query {
    Pulse,
    Interval,
    Group,
}

// How the card is to start again.
#[derive(Clone, Copy, PartialEq, Eq, Debug)]
pub enum Start {
    Hot,
    Warm,
    Cold,
    Factory,
}

// The sections that a command names, a flag for each: a set of bits would have the gaps of the section numbers, and no names.
#[derive(Clone, Copy)]
pub struct Sections {
    pub port: bool,
    pub messages: bool,
    pub navigation: bool,
    pub pulse: bool,
    pub group: bool,
}

// The rates that a sentence can set together; one that it leaves out stays.
#[derive(Clone, Copy)]
pub struct Rates {
    pub gga: Option<u8>,
    pub gll: Option<u8>,
    pub rmc: Option<u8>,
    pub zda: Option<u8>,
}

#[derive(Clone, Copy)]
pub enum Command {
    Set(Setting),
    SetRates(Rates),
    Save(Sections),
    Clear(Sections),
    Load(Sections),
    Start(Start),
    Query(Query),
}

// Why a frame or sentence is no command: it is none of the card's, or it has something wrong in it.
#[derive(Clone, Copy, PartialEq, Eq, Debug)]
pub enum Unheeded {
    PassedOver,
    Wrong,
}

// What became of a frame or sentence.
#[derive(Clone, Copy, PartialEq, Eq, Debug)]
pub enum Outcome {
    PassedOver,
    TurnedDown,
    Done,
    Told(Query),
}

// A number that no start has.
#[derive(Clone, Copy, PartialEq, Eq, Debug)]
pub struct UnknownStart(pub u8);

impl TryFrom<u8> for Start {
    type Error = UnknownStart;

    // The start of a number.
    ghost try_from_gives = { λ number r. r ≡ ok_or (start_at number) (unknown_start number) };

    fn try_from(number: u8) -> Result<Start, UnknownStart> {
        match number {
            0 => Ok(Start::Hot),
            1 => Ok(Start::Warm),
            2 => Ok(Start::Cold),
            3 => Ok(Start::Factory),
            _ => Err(UnknownStart(number)),
        }
    }
}

impl From<u16> for Sections {
    // The sections that the bits of a mask name.
    ghost from_gives = { λ mask sections. sections ≡ sections_in mask };

    fn from(mask: u16) -> Sections {
        Sections {
            port: mask % 2 == 1,
            messages: mask / 2 % 2 == 1,
            navigation: mask / 8 % 2 == 1,
            pulse: mask / 16 % 2 == 1,
            group: mask / 32 % 2 == 1,
        }
    }
}

impl Sections {
    // All five sections.
    pub fn all() -> Sections
        ensures { result ≡ all_sections }
    {
        Sections {
            port: true,
            messages: true,
            navigation: true,
            pulse: true,
            group: true,
        }
    }

    // Whether a section is among them.
    pub fn has(self, section: Section) -> bool
        ensures { result ≡ names_section self section }
    {
        match section {
            Section::Port => self.port,
            Section::Messages => self.messages,
            Section::Navigation => self.navigation,
            Section::Pulse => self.pulse,
            Section::Group => self.group,
        }
    }
}

impl Command {
    // The start of a number.
    pub(crate) fn start(number: u8) -> Option<Command>
        ensures { asked result ≡ start_by number }
    {
        Start::try_from(number).ok().map(Command::Start)
    }

    // An interval between fixes.
    pub(crate) fn interval(milliseconds: u16) -> Option<Command>
        ensures { asked result ≡ set_interval milliseconds }
    {
        let interval = Interval::new(milliseconds)?;
        Some(Command::Set(Setting::Interval(interval)))
    }
}
