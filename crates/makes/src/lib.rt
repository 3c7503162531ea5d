// Each make of settings memory at work, as its caller sees it.
#![tactic(auto)]

ghost use Rattle.std.specs.Prelude.{◌≡◌, true};
ghost use Rattle.memory.specs.Memory.{known, keepable, keep_answer, keep_after};
ghost use Rattle.battery.specs.Places.{battery_meaning, keep_image as battery_after};
ghost use Rattle.journal.specs.Slots.{writes_left};
ghost use Rattle.journal.specs.Writes.{Keeps, Erases};
ghost use Rattle.makes.specs.Both.{FullJournal};

use battery::Battery;
use journal::Journal;
use memory::{Refusal, SettingsMemory};
use settings::Section;

// Keeps a string in a journal that is made and ended here: the lender knows every byte afterwards.
pub fn keep_in(image: &mut [u8], section: u8, bytes: &[u8]) -> Result<(), Refusal>
    ensures { Keeps image.old image.new section bytes.now result }
{
    Journal::new(image).keep(section, bytes)
}

// Erases a section of a journal that is made and ended here.
pub fn erase_in(image: &mut [u8], section: u8) -> Result<(), Refusal>
    ensures { Erases image.old image.new section result }
{
    Journal::new(image).erase(section)
}

// Offers a string to a battery memory and to a journal.
// Apart from `keep_both`: tried as one, whose proof the search did not close.
fn offer(
    battery: &mut Battery,
    image: &mut [u8],
    section: u8,
    bytes: &[u8],
) -> (Result<(), Refusal>, Result<(), Refusal>)
    ensures answer { result.0 ≡ keep_answer (battery_meaning battery.old.image) section bytes.now }
    ensures battery { battery.new.image ≡ battery_after battery.old.image section bytes.now }
    ensures journal { Keeps image.old image.new section bytes.now result.1 }
    ensures after { battery_meaning battery.new.image ≡ keep_after (battery_meaning battery.old.image) section bytes.now }
{
    let by_battery = battery.keep(section, bytes);
    let by_journal = keep_in(image, section, bytes);
    (by_battery, by_journal)
}

// Offers a string to both makes: where the journal has no writes left, the battery keeps it and the journal refuses it.
pub fn keep_both(
    battery: &mut Battery,
    image: &mut [u8],
    section: u8,
    bytes: &[u8],
) -> (Result<(), Refusal>, Result<(), Refusal>)
    ensures answer { result.0 ≡ keep_answer (battery_meaning battery.old.image) section bytes.now }
    ensures battery { battery.new.image ≡ battery_after battery.old.image section bytes.now }
    ensures journal { Keeps image.old image.new section bytes.now result.1 }
    ensures full { keepable section bytes.now ≡ true → writes_left image.old ≡ 0 → FullJournal battery.new.image image.old image.new section bytes.now result.0 result.1 }
{
    offer(battery, image, section, bytes)
}

// Whether the settings have a section of a number: exactly the numbers that a memory knows.
pub fn has_section(number: u8) -> bool
    ensures { result ≡ known number }
{
    Section::try_from(number).is_ok()
}

#[cfg(test)]
mod tests {
    use super::*;
    use keeping::{keep_section, load_section};
    use settings::{Interval, Message, Messages, Setting, Settings};
    use std::alloc::{AllocError, Global};
    use std::iter::repeat_n;
    use std::process::Abort;
    use std::test::Fail;

    // A call that is refused alike by every make, whatever it holds.
    fn refuses_alike<M: SettingsMemory>(rt: &impl Abort, memory: &mut M) {
        for section in [2u8, 6, 255] {
            let mut short = [0u8; 55];
            assert_eq!(rt;
                memory.keep(section, &[0; 57]),
                Err(Refusal::UnknownSection)
            );
            assert_eq!(rt; memory.erase(section), Err(Refusal::UnknownSection));
            assert_eq!(rt;
                memory.read(section, &mut short),
                Err(Refusal::UnknownSection)
            );
        }
        for section in [0u8, 1, 3, 4, 5] {
            let mut short = [0u8; 55];
            let mut whole = [0u8; 56];
            assert_eq!(rt; memory.keep(section, &[0; 57]), Err(Refusal::StringTooLong));
            assert_eq!(rt;
                memory.read(section, &mut short),
                Err(Refusal::BufferTooShort)
            );
            assert_eq!(rt; memory.read(section, &mut whole), Ok(None));
        }
    }

    #[test]
    fn numbers(rt: HostRuntime) {
        assert_eq!(rt; Refusal::UnknownSection.number(), 7);
        assert_eq!(rt; Refusal::StringTooLong.number(), 8);
        assert_eq!(rt; Refusal::NoWritesLeft.number(), 9);
        assert_eq!(rt; Refusal::BufferTooShort.number(), 10);
    }

    #[test]
    fn battery_refuses_and_keeps(rt: HostRuntime) {
        let mut battery = Battery::new([9; 320]);
        refuses_alike(&rt, &mut battery);
        assert_eq!(rt; battery.left(), 0);
        assert_eq!(rt; battery.price(), 0);
        assert_eq!(rt; battery.keep(3, &[50, 0, 3]), Ok(()));
        let image = battery.image();
        assert_eq!(rt; image[127], 9);
        assert_eq!(rt; &image[128..136], [1, 3, 9, 9, 50, 0, 3, 9].as_slice());
        let mut out = [7u8; 56];
        assert_eq!(rt; battery.read(3, &mut out), Ok(Some(3)));
        assert_eq!(rt; [out[0], out[2], out[3]], [50, 3, 7]);
        assert_eq!(rt; battery.erase(3), Ok(()));
        assert_eq!(rt; battery.erase(3), Ok(()));
        assert_eq!(rt; battery.read(3, &mut out), Ok(None));
        assert_eq!(rt; [battery.image()[128], battery.image()[129]], [0, 3]);
    }

    #[test]
    fn battery_takes_56_and_not_57(rt: HostRuntime) {
        let mut image = [0; 320];
        image[0] = 1;
        image[1] = 56;
        image[64] = 1;
        image[65] = 57;
        image[128] = 2;
        let battery = Battery::new(image);
        let mut out = [7u8; 57];
        assert_eq!(rt; battery.read(0, &mut out), Ok(Some(56)));
        assert_eq!(rt; [out[55], out[56]], [0, 7]);
        assert_eq!(rt; battery.read(1, &mut out), Ok(None));
        assert_eq!(rt; battery.read(3, &mut out), Ok(None));
    }

    #[test]
    fn journal_of_two_slots(rt: HostRuntime) {
        let mut image = [255u8; 130];
        let mut journal = Journal::new(&mut image);
        refuses_alike(&rt, &mut journal);
        assert_eq!(rt; journal.price(), 1);
        assert_eq!(rt; journal.left(), 2);
        assert_eq!(rt; journal.keep(1, &[1, 0, 2, 1, 10]), Ok(()));
        assert_eq!(rt; journal.left(), 1);
        assert_eq!(rt; journal.slot_of(1), Some(0));
        assert_eq!(rt; journal.erase(5), Ok(()));
        assert_eq!(rt; journal.left(), 0);
        assert_eq!(rt; journal.keep(0, &[1]), Err(Refusal::NoWritesLeft));
        assert_eq!(rt; journal.erase(0), Err(Refusal::NoWritesLeft));
        assert_eq!(rt; journal.keep(0, &[0; 57]), Err(Refusal::StringTooLong));
        assert_eq!(rt; journal.keep(2, &[1]), Err(Refusal::UnknownSection));
        let mut out = [7u8; 56];
        assert_eq!(rt; journal.read(1, &mut out), Ok(Some(5)));
        assert_eq!(rt; [out[2], out[4], out[5]], [2, 10, 7]);
    }

    #[test]
    fn lender_sees_the_bytes(rt: HostRuntime) {
        let mut image = [255u8; 130];
        assert_eq!(rt; keep_in(&mut image, 3, &[50, 0]), Ok(()));
        assert_eq!(rt; erase_in(&mut image, 4), Ok(()));
        assert_eq!(rt; keep_in(&mut image, 3, &[1]), Err(Refusal::NoWritesLeft));
        assert_eq!(rt; &image[..7], [1, 3, 2, 0, 50, 0, 255].as_slice());
        assert_eq!(rt; &image[64..69], [0, 4, 0, 0, 255].as_slice());
        assert_eq!(rt; [image[128], image[129]], [255, 255]);
    }

    // A journal of slots with these first four bytes, each filled with its place from 1 on, and a tail behind.
    fn slots(heap: Global, heads: &[[u8; 4]], tail: usize) -> Result<Vec<u8>, AllocError> {
        let mut image = Vec::new(heap);
        for (place, head) in (1..=u8::MAX).zip(heads) {
            image.extend_from_slice(head)?;
            image.extend_from_slice(&[place; 60])?;
        }
        image.extend(repeat_n(1, tail))?;
        Ok(image)
    }

    // What such a journal answers for section 4: the length of its string, the string's first byte and the writes left.
    fn answers(
        heap: Global,
        heads: &[[u8; 4]],
        tail: usize,
    ) -> Result<(Result<Option<usize>, Refusal>, u8, usize), Fail> {
        let mut image = slots(heap, heads, tail)?;
        let journal = Journal::new(image.as_mut_slice());
        let mut out = [0u8; 56];
        let length = journal.read(4, &mut out);
        Ok((length, out[0], journal.left()))
    }

    #[test]
    fn images_of_each_shape(rt: HostRuntime) -> Result<(), Fail> {
        let heap = rt.alloc();
        let free = [255, 255, 255, 255];
        let keep = [1, 4, 16, 0];
        assert_eq!(rt; answers(heap, &[], 0)?, (Ok(None), 0, 0), "no bytes");
        assert_eq!(rt; answers(heap, &[], 63)?, (Ok(None), 0, 0), "a tail alone");
        assert_eq!(rt;
            answers(heap, &[keep, free], 63)?,
            (Ok(Some(16)), 1, 1),
            "a tail behind slots"
        );
        assert_eq!(rt;
            answers(heap, &[keep, keep, free], 0)?,
            (Ok(Some(16)), 2, 1),
            "the latest counts"
        );
        assert_eq!(rt;
            answers(heap, &[keep, [1, 0, 1, 0], free], 0)?,
            (Ok(Some(16)), 1, 1),
            "another section behind it"
        );
        assert_eq!(rt;
            answers(heap, &[keep, [0, 4, 0, 0], free], 0)?,
            (Ok(None), 0, 1),
            "erased"
        );
        assert_eq!(rt;
            answers(heap, &[keep, [0, 4, 1, 0], free], 0)?,
            (Ok(Some(16)), 1, 1),
            "an erase with a length"
        );
        assert_eq!(rt;
            answers(heap, &[keep, [1, 4, 57, 0], free], 0)?,
            (Ok(Some(16)), 1, 1),
            "a keep of 57"
        );
        assert_eq!(rt;
            answers(heap, &[keep, [1, 4, 56, 0]], 0)?,
            (Ok(Some(56)), 2, 0),
            "a keep of 56"
        );
        assert_eq!(rt;
            answers(heap, &[keep, [1, 4, 16, 1]], 0)?,
            (Ok(Some(16)), 1, 0),
            "byte 3 not 0"
        );
        assert_eq!(rt;
            answers(heap, &[keep, [2, 4, 16, 0]], 0)?,
            (Ok(Some(16)), 1, 0),
            "another first byte"
        );
        assert_eq!(rt;
            answers(heap, &[keep, [1, 2, 16, 0]], 0)?,
            (Ok(Some(16)), 1, 0),
            "an unknown section"
        );
        assert_eq!(rt;
            answers(heap, &[free, free, keep, free, free], 0)?,
            (Ok(Some(16)), 3, 2),
            "a gap of free slots"
        );
        assert_eq!(rt;
            answers(heap, &[free, free, [7, 7, 7, 7], free], 0)?,
            (Ok(None), 0, 1),
            "the last one not free is malformed"
        );
        Ok(())
    }

    // Journals about the limit: a slot that begins at byte 65,536 is none.
    #[test]
    fn images_at_the_limit(rt: HostRuntime) -> Result<(), Fail> {
        for size in [65535usize, 65536, 65537, 65600, 70000] {
            let mut image: Vec<u8> = vec![in rt.alloc(); 255; size]?;
            let mut journal = Journal::new(image.as_mut_slice());
            let slots = if size < 65536 { 1023 } else { 1024 };
            assert_eq!(rt; journal.left(), slots);
            assert_eq!(rt; journal.keep(5, &[8; 56]), Ok(()));
            assert_eq!(rt; journal.left(), slots - 1);
        }
        let mut image: Vec<u8> = vec![in rt.alloc(); 255; 65664]?;
        assert!(rt; image.len() == 65664);
        image[65472] = 0;
        image[65536] = 0;
        let mut journal = Journal::new(image.as_mut_slice());
        assert_eq!(rt; journal.left(), 0);
        assert_eq!(rt; journal.keep(5, &[8; 56]), Err(Refusal::NoWritesLeft));
        Ok(())
    }

    // A section that was kept is loaded as it was, and one that was erased as it leaves the factory.
    fn loads_what_was_kept<M: SettingsMemory>(rt: &impl Abort, memory: &mut M) {
        let mut settings = Settings::factory();
        settings.set(Setting::Rate(Message::Gll, 2));
        if let Some(interval) = Interval::new(500) {
            settings.set(Setting::Interval(interval));
        }
        assert_eq!(rt; keep_section(memory, &settings, Section::Messages), Ok(()));
        assert_eq!(rt;
            keep_section(memory, &settings, Section::Navigation),
            Ok(())
        );
        let mut loaded = Settings::factory();
        assert_eq!(rt;
            load_section(memory, &mut loaded, Section::Messages),
            Ok(())
        );
        assert_eq!(rt;
            load_section(memory, &mut loaded, Section::Navigation),
            Ok(())
        );
        let rate = loaded.messages.entries[1].rate;
        assert_eq!(rt; rate, 2);
        assert_eq!(rt; loaded.interval.milliseconds, 500);
        assert_eq!(rt; memory.erase(3), Ok(()));
        assert_eq!(rt;
            load_section(memory, &mut loaded, Section::Navigation),
            Ok(())
        );
        assert_eq!(rt; loaded.interval.milliseconds, 1000);
    }

    #[test]
    fn settings_through_each_make(rt: HostRuntime) {
        let mut battery = Battery::new([0; 320]);
        loads_what_was_kept(&rt, &mut battery);
        let mut image = [255u8; 192];
        let mut journal = Journal::new(&mut image);
        loads_what_was_kept(&rt, &mut journal);
        assert_eq!(rt;
            keep_section(&mut journal, &Settings::factory(), Section::Port),
            Err(Refusal::NoWritesLeft)
        );
    }

    // Whoever is lent the table of messages counts a fix for one of them in its place.
    fn counted(messages: &mut Messages) -> bool {
        messages.entries[2].advance()
    }

    #[test]
    fn entry_of_a_lent_table(rt: HostRuntime) {
        let mut messages = Messages::new([1, 0, 2, 1, 0]);
        assert!(rt; !counted(&mut messages));
        assert!(rt; counted(&mut messages));
        assert_eq!(rt; messages.rates(), [1, 0, 2, 1, 0]);
    }

    #[test]
    fn journal_listed(rt: HostRuntime) -> Result<(), Fail> {
        let mut image = [255u8; 384];
        let mut journal = Journal::new(&mut image);
        assert_eq!(rt; journal.keep(0, &[6]), Ok(()));
        assert_eq!(rt; journal.keep(0, &[5]), Ok(()));
        assert_eq!(rt; journal.keep(1, &[1, 0, 2, 1]), Ok(()));
        assert_eq!(rt; journal.keep(3, &[0xf4, 1, 7]), Ok(()));
        assert_eq!(rt; journal.erase(5), Ok(()));
        let text = listing::listing(rt.alloc(), &journal)?;
        assert_eq!(rt;
            text.as_str(),
            "0 port: baud code 5\n1 messages: no kept value, 4 bytes: 01 00 02 01\n3 navigation: interval 500 ms, systems 7\n4 pulse: no string\n5 group: no string\nwrites left 1, price 1\n"
        );
        Ok(())
    }
}
