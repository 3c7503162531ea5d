// What a settings memory holds, as lines to read.
#![tactic(auto)]

ghost use Rattle.std.specs.Prelude.{◌≡◌, replicate, if◌then◌else◌, Some, None, slice_index_or};
ghost use Rattle.std.specs.Option.{option_map};
ghost use Rattle.listing.specs.Words.{section_word};
ghost use Rattle.settings.specs.Names.{place};
ghost use Rattle.settings.specs.Values.{values, counts, factory};
ghost use Rattle.settings.specs.Strings.{is_kept, read_back};

use memory::{LONGEST, Refusal, SettingsMemory};
use prints::Hex;
use settings::{Entry, Message, Pulse, Section, Settings};
use std::alloc::{AllocError, Global};
use std::fmt;

// Why there is no listing.
#[derive(Debug, Drop)]
pub enum ListingError {
    NoMemory,
    Refused(Refusal),
}

impl From<AllocError> for ListingError {
    fn from(_error: AllocError) -> ListingError {
        ListingError::NoMemory
    }
}

impl From<Refusal> for ListingError {
    fn from(refusal: Refusal) -> ListingError {
        ListingError::Refused(refusal)
    }
}

// The settings that a section's string names, where it is a kept value.
pub fn named(section: Section, string: &[u8]) -> Option<Settings>
    ensures values { option_map values result ≡ read_back factory section string.now }
    ensures counts { option_map counts result ≡ (if is_kept section string.now then Some (replicate 5 0) else None) }
{
    let mut settings = Settings::factory();
    settings.take_string(section, string)?;
    Some(settings)
}

// The word for a section; no Display, since the type is another crate's.
fn word(section: Section) -> &'static str
    ensures { result.now ≡ section_word section }
{
    match section {
        Section::Port => "port",
        Section::Messages => "messages",
        Section::Navigation => "navigation",
        Section::Pulse => "pulse",
        Section::Group => "group",
    }
}

// The rate of a message; by message and not all at once, so that a clause says whose rate it is.
fn rate(settings: &Settings, message: Message) -> u8
    ensures { (d : Entry) → result ≡ (slice_index_or settings.now.messages.entries (place message) d).rate }
{
    settings.messages.entries[message.place()].rate
}

// The rates of the five messages.
#[derive(Clone, Copy)]
struct Rates<'a>(&'a Settings);

impl fmt::Display for Rates<'_> {
    fn fmt<W: fmt::Write>(&self, f: &mut fmt::Formatter<W>) -> fmt::Result {
        let gga = rate(self.0, Message::Gga);
        let gll = rate(self.0, Message::Gll);
        let rmc = rate(self.0, Message::Rmc);
        let zda = rate(self.0, Message::Zda);
        let utc = rate(self.0, Message::TimeUtc);
        write!(
            f,
            "rates GGA {gga}, GLL {gll}, RMC {rmc}, ZDA {zda}, NAV-TIMEUTC {utc}"
        )
    }
}

// The fields of the pulse.
#[derive(Clone, Copy)]
struct Fields(Pulse);

impl fmt::Display for Fields {
    fn fmt<W: fmt::Write>(&self, f: &mut fmt::Formatter<W>) -> fmt::Result {
        let Pulse {
            interval,
            width,
            enable,
            polarity,
            reference,
            source,
            delay,
        } = self.0;
        write!(
            f,
            "interval {interval} us, width {width} us, enable {enable}, polarity {polarity}"
        )?;
        let delay = Hex(&delay);
        write!(f, ", reference {reference}, source {source}, delay{delay}")
    }
}

// A section in the terms of its settings.
#[derive(Clone, Copy)]
struct Terms<'a> {
    section: Section,
    settings: &'a Settings,
}

impl fmt::Display for Terms<'_> {
    fn fmt<W: fmt::Write>(&self, f: &mut fmt::Formatter<W>) -> fmt::Result {
        let settings = self.settings;
        match self.section {
            Section::Port => {
                let code = settings.baud.code;
                write!(f, "baud code {code}")
            }
            Section::Messages => {
                let rates = Rates(settings);
                write!(f, "{rates}")
            }
            Section::Navigation => {
                let interval = settings.interval.milliseconds;
                let systems = settings.systems.mask;
                write!(f, "interval {interval} ms, systems {systems}")
            }
            Section::Pulse => {
                let fields = Fields(settings.pulse);
                write!(f, "{fields}")
            }
            Section::Group => {
                let bytes = Hex(&settings.group.bytes);
                write!(f, "bytes{bytes}")
            }
        }
    }
}

// What a section holds.
#[derive(Clone, Copy)]
struct Held<'a> {
    section: Section,
    string: Option<&'a [u8]>,
}

impl fmt::Display for Held<'_> {
    fn fmt<W: fmt::Write>(&self, f: &mut fmt::Formatter<W>) -> fmt::Result {
        let section = self.section;
        let Some(bytes) = self.string else {
            return f.write_str("no string");
        };
        match named(section, bytes) {
            Some(settings) => {
                let terms = Terms {
                    section,
                    settings: &settings,
                };
                write!(f, "{terms}")
            }
            None => {
                let size = bytes.len();
                let digits = Hex(bytes);
                write!(f, "no kept value, {size} bytes:{digits}")
            }
        }
    }
}

// A line for each section, and one for the writes left and the price.
pub fn listing<M: SettingsMemory>(heap: Global, memory: &M) -> Result<String, ListingError> {
    let mut text = String::new(heap);
    for section in Section::ALL {
        let mut buffer = [0; LONGEST];
        let string = memory::kept_string(memory, section.number(), &mut buffer)?;
        let what = Held { section, string };
        let number = section.number();
        let name = word(section);
        writeln!(text, "{number} {name}: {what}")?;
    }
    let left = memory.left();
    let price = memory.price();
    writeln!(text, "writes left {left}, price {price}")?;
    Ok(text)
}
