// One section of the settings at a time, where it is among those that a command names.
ghost use Rattle.std.specs.Prelude.{◌≡◌, ◌*◌, ◌≤◌, if◌then◌else◌, Ok};
ghost use Rattle.std.specs.List.{count_by};
ghost use Rattle.settings.specs.declared.names.Section.{Section};
ghost use Rattle.settings.specs.declared.names.Message.{Message};
ghost use Rattle.commands.specs.Settings.{rate};
ghost use Rattle.commands.specs.Commands.{names_section};
ghost use Rattle.rule.specs.Events.{kept_settings, one_if, how_many};
ghost use Rattle.rule.specs.Words.{chosen};
ghost use Rattle.inforce.specs.Has.{settings_of, count_of, strings_of};
ghost use Rattle.inforce.specs.Sections.{in_section, with_filed, paid};

use crate::parts::Writing;
use commands::Sections;
use keeping::{keep_section, load_section};
use memory::{Refusal, SettingsMemory};
use settings::{Section, Settings};

// How many of some sections a command names.
fn how_many_of(some: &[Section], sections: Sections) -> usize
    ensures { result ≡ count_by (names_section sections) some.now }
{
    some.iter()
        .filter(|section| sections.has(**section))
        .count()
}

// How many sections a command names.
pub fn how_many(sections: Sections) -> usize
    ensures { result ≡ how_many sections }
{
    how_many_of(&Section::ALL, sections)
}

// Brings a section into force, as it is kept or from the factory.
// Memory and settings come apart: a method of both would have to say that the memory stays.
pub fn load_one<M: SettingsMemory>(
    memory: &M,
    settings: &mut Settings,
    sections: Sections,
    section: Section,
) -> Result<(), Refusal>
    ensures done { result ≡ Ok tt }
    ensures settings { settings_of settings.new ≡ chosen (in_section sections section) (kept_settings (strings_of (M.meaning memory.now))) (settings_of settings.old) }
    ensures counts { (m : Message) → count_of settings.new m ≡ (if in_section sections section (rate m) then 0 else count_of settings.old m) }
{
    if sections.has(section) {
        load_section(memory, settings, section)?;
    }
    Ok(())
}

// Keeps or erases the string of a section, which the memory has a write left for.
pub fn write_one<M: SettingsMemory>(
    memory: &mut M,
    settings: &Settings,
    sections: Sections,
    section: Section,
    writing: Writing,
) -> Result<(), Refusal>
    requires { one_if (names_section sections section) * (M.meaning memory.old).price ≤ (M.meaning memory.old).left }
    ensures done { result ≡ Ok tt }
    ensures strings { (t : Section) → strings_of (M.meaning memory.new) t ≡ with_filed writing (settings_of settings.now) sections section (strings_of (M.meaning memory.old)) t }
    ensures left { (M.meaning memory.new).left ≡ paid sections section (M.meaning memory.old).left (M.meaning memory.old).price }
    ensures price { (M.meaning memory.new).price ≡ (M.meaning memory.old).price }
{
    if sections.has(section) {
        match writing {
            Writing::Keep => keep_section(memory, settings, section)?,
            Writing::Erase => memory.erase(section.number())?,
        }
    }
    Ok(())
}
