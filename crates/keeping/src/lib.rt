// Settings kept in a memory of any make, and loaded from it.
#![tactic(auto)]

ghost use Rattle.std.specs.Prelude.{◌≡◌, Ok};
ghost use Rattle.memory.specs.Memory.{keep_answer, keep_after};
ghost use Rattle.settings.specs.Changes.{counts_loaded};
ghost use Rattle.settings.specs.Names.{number};
ghost use Rattle.settings.specs.Strings.{kept_string};
ghost use Rattle.settings.specs.Values.{values, counts};
ghost use Rattle.keeping.specs.Loaded.{loaded};

use memory::{LONGEST, Refusal, SettingsMemory};
use settings::{Section, Settings};

// Keeps a section of the settings in force.
pub fn keep_section<M: SettingsMemory>(
    memory: &mut M,
    settings: &Settings,
    section: Section,
) -> Result<(), Refusal>
    ensures answer { result ≡ keep_answer (M.meaning memory.old) (number section) (kept_string (values settings.now) section) }
    ensures after { M.meaning memory.new ≡ keep_after (M.meaning memory.old) (number section) (kept_string (values settings.now) section) }
{
    let mut buffer = [0; LONGEST];
    let n = settings.kept_string(section, &mut buffer);
    memory.keep(section.number(), &buffer[..n])
}

// Brings a section into force as the memory keeps it, or from the factory where it keeps no value.
// The memory's `Result` goes on to the card's calls, by a rule of the project, though none of its refusals can come.
pub fn load_section<M: SettingsMemory>(
    memory: &M,
    settings: &mut Settings,
    section: Section,
) -> Result<(), Refusal>
    ensures done { result ≡ Ok tt }
    ensures values { values settings.new ≡ loaded (values settings.old) section ((M.meaning memory.now).string (number section)) }
    ensures counts { counts settings.new ≡ counts_loaded (counts settings.old) section }
{
    let mut buffer = [0; LONGEST];
    // Tried with and_then: its closure writes to the settings, and the proof did not close.
    let taken = match memory::kept_string(memory, section.number(), &mut buffer)? {
        Some(string) => settings.take_string(section, string),
        None => None,
    };
    if taken.is_none() {
        settings.restore(section);
    }
    Ok(())
}
