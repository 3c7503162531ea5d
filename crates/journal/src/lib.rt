// Flash journal: slots over the caller's memory, of which each write spends one.
#![tactic(auto)]

ghost use Rattle.std.specs.Prelude.{◌≡◌, refl};
ghost use Rattle.memory.specs.Memory.{keep_answer, keep_after, erase_answer, erase_after};
ghost use Rattle.journal.specs.Limits.{journal_limits};
ghost use Rattle.journal.specs.Latest.{FreeBehind, Found, Said};
ghost use Rattle.journal.specs.Slots.{slots, writes_left, journal_meaning};
ghost use Rattle.journal.specs.Writes.{Keeps, Erases};

use memory::{Refusal, SettingsMemory, ShortString};

mod slots;

use slots::{latest_slot, read_section, spend, writes_left};

// A settings memory over the bytes that it is lent; any bytes are lawful.
#[derive(Drop)]
pub struct Journal<'a> {
    image: &'a mut [u8],
}

impl<'a> Journal<'a> {
    pub fn new(image: &'a mut [u8]) -> Journal<'a>
        ensures image { result.image.now ≡ image.old }
        ensures held { result.image.ghost_name ≡ image.entry.ghost_name }
    {
        Journal { image }
    }

    // The latest well-formed slot that names the section: its string is what that slot says.
    pub fn slot_of(&self, section: u8) -> Option<usize>
        ensures found { Found self.now.image.now section (slots self.now.image.now) result }
        ensures said { Said self.now.image.now section ((journal_meaning self.now.image.now).string section) }
    {
        latest_slot(self.image, section)
    }
}

impl<'a> SettingsMemory for Journal<'a> {
    ghost meaning = { λ j. journal_meaning j.image.now };

    ghost limits = { λ j. journal_limits j.image.now };

    ghost fixed = { λ j k. refl };

    fn keep(&mut self, section: u8, bytes: &[u8]) -> Result<(), Refusal>
        ensures answer { result ≡ keep_answer (journal_meaning self.old.image.now) section bytes.now }
        ensures after { journal_meaning self.new.image.now ≡ keep_after (journal_meaning self.old.image.now) section bytes.now }
        ensures keeps { Keeps self.old.image.now self.new.image.now section bytes.now result }
        ensures held { self.new.image.ghost_name ≡ self.old.image.ghost_name }
    {
        memory::check_section(section)?;
        let string = ShortString::try_from(bytes)?;
        spend(self.image, section, Some(string))
    }

    fn erase(&mut self, section: u8) -> Result<(), Refusal>
        ensures answer { result ≡ erase_answer (journal_meaning self.old.image.now) section }
        ensures after { journal_meaning self.new.image.now ≡ erase_after (journal_meaning self.old.image.now) section }
        ensures erases { Erases self.old.image.now self.new.image.now section result }
        ensures held { self.new.image.ghost_name ≡ self.old.image.ghost_name }
    {
        memory::check_section(section)?;
        spend(self.image, section, None)
    }

    fn read(&self, section: u8, out: &mut [u8]) -> Result<Option<usize>, Refusal> {
        read_section(self.image, section, out)
    }

    fn left(&self) -> usize
        ensures count { result ≡ writes_left self.now.image.now }
        ensures behind { FreeBehind self.now.image.now result }
    {
        writes_left(self.image)
    }

    fn price(&self) -> usize {
        1
    }
}
