// The kept string of each section of the settings, and a section read back.
ghost use Rattle.std.specs.Prelude.{◌≡◌, ◌≤◌, ◌++◌, length, take, drop, if◌then◌else◌, is_some, Some};
ghost use Rattle.std.specs.Option.{unwrap_or};
ghost use Rattle.settings.specs.Values.{values, counts, factory};
ghost use Rattle.settings.specs.Strings.{kept_string, is_kept, with_section, read_back};
ghost use Rattle.settings.specs.Changes.{counts_loaded};

use crate::names::Section;
use crate::strings::{read_messages, read_navigation, read_port};
use crate::values::{Group, Messages, Pulse, Settings};

// Writes a string over the start of a buffer, and gives its length.
// The buffer is the caller's, a rule of the project for what is handed out: each byte behind the string stays.
fn put(out: &mut [u8; 56], string: &[u8]) -> usize
    requires { length string.now ≤ 56 }
    ensures size { result ≡ length string.now }
    ensures out { out.new ≡ string.now ++ drop (length string.now) out.old }
{
    let n = string.len();
    out[0..n].copy_from_slice(string);
    n
}

impl Settings {
    // The kept string of a section, over the start of a buffer, and its length; read back, it names the same settings.
    pub fn kept_string(&self, section: Section, out: &mut [u8; 56]) -> usize
        ensures size { result ≡ length (kept_string (values self.now) section) }
        ensures out { out.new ≡ kept_string (values self.now) section ++ drop (length (kept_string (values self.now) section)) out.old }
        ensures back { read_back (values self.now) section (take result out.new) ≡ Some (values self.now) }
    {
        match section {
            Section::Port => put(out, &[self.baud.code]),
            Section::Messages => put(out, &self.messages.rates()),
            Section::Navigation => {
                let [low, high] = self.interval.milliseconds.to_le_bytes();
                put(out, &[low, high, self.systems.mask])
            }
            Section::Pulse => put(out, &self.pulse.string()),
            Section::Group => put(out, &self.group.bytes),
        }
    }

    // Brings a section's settings into force as a string names them; none where the string is no kept value.
    pub fn take_string(&mut self, section: Section, string: &[u8]) -> Option<()>
        ensures answer { is_some result ≡ is_kept section string.now }
        ensures values { values self.new ≡ unwrap_or (read_back (values self.old) section string.now) (values self.old) }
        ensures counts { counts self.new ≡ (if is_some result then counts_loaded (counts self.old) section else counts self.old) }
    {
        match section {
            Section::Port => self.baud = read_port(string)?,
            Section::Messages => self.messages = Messages::new(read_messages(string)?),
            Section::Navigation => {
                let navigation = read_navigation(string)?;
                self.interval = navigation.interval;
                self.systems = navigation.systems;
            }
            Section::Pulse => self.pulse = Pulse::read(string)?,
            Section::Group => self.group = Group::read(string)?,
        }
        Some(())
    }

    // Brings the factory settings of a section into force.
    pub fn restore(&mut self, section: Section)
        ensures values { values self.new ≡ with_section (values self.old) section (kept_string factory section) }
        ensures counts { counts self.new ≡ counts_loaded (counts self.old) section }
    {
        let factory = Settings::factory();
        match section {
            Section::Port => self.baud = factory.baud,
            Section::Messages => self.messages = factory.messages,
            Section::Navigation => {
                self.interval = factory.interval;
                self.systems = factory.systems;
            }
            Section::Pulse => self.pulse = factory.pulse,
            Section::Group => self.group = factory.group,
        }
    }
}
