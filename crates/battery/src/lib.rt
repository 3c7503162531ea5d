// Battery memory: an image of 320 bytes, in which a write costs nothing.
#![tactic(auto)]

ghost use Rattle.std.specs.Prelude.{◌≡◌, ◌+◌, ◌<◌, ◌≤◌, not, length, is_ok, Ok, slice_set, refl};
ghost use Rattle.std.specs.Option.{option_map};
ghost use Rattle.memory.specs.Memory.{known, keepable, refuse, with_string, keep_answer, keep_after, erase_answer, erase_after};
ghost use Rattle.battery.specs.Limits.{battery_limits};
ghost use Rattle.battery.specs.Places.{start, string_in, filled, battery_meaning, keep_image, erase_image};

use memory::{LONGEST, Refusal, SettingsMemory, ShortString};

// The bytes of a place.
const PLACE: usize = 64;

// What byte 0 of a place says: that a string stands there, or that erase was here.
const STRING: u8 = 1;

const ERASED: u8 = 0;

// A settings memory that holds its image itself; any 320 bytes are lawful.
#[derive(Drop)]
pub struct Battery {
    image: [u8; 320],
}

impl Battery {
    pub fn new(image: [u8; 320]) -> Battery
        ensures { result.image ≡ image }
    {
        Battery { image }
    }

    pub fn image(&self) -> &[u8; 320]
        ensures { result.now ≡ self.now.image }
    {
        &self.image
    }
}

// Where the place of a section starts, if there is such a section.
fn place(section: u8) -> Result<usize, Refusal>
    ensures { result ≡ refuse (not (known section)) Refusal.UnknownSection (Ok (start section)) }
{
    match section {
        0 | 1 => Ok(PLACE * usize::from(section)),
        3..=5 => Ok(PLACE * (usize::from(section) - 1)),
        _ => Err(Refusal::UnknownSection),
    }
}

// Writes a string into the place that starts at `at`.
fn fill(image: &mut [u8], at: usize, string: ShortString)
    requires { at + 64 ≤ length image.old }
    ensures { image.new ≡ filled at string.entry.bytes.now image.old }
{
    let bytes = string.bytes;
    let n = bytes.len();
    image[at] = STRING;
    image[at + 1] = n as u8;
    image[at + 4..at + 4 + n].copy_from_slice(bytes);
}

// Marks the place that starts at `at` as holding no string.
fn clear(image: &mut [u8], at: usize)
    requires { at < length image.old }
    ensures { image.new ≡ slice_set image.old at 0 }
{
    image[at] = ERASED;
}

// Copies the string of a place, if one stands there, to the start of `out`, and gives its length.
// The place is a slice, since where it lies is computed from the section: an array would have to be tested out of the image.
fn copy(place: &[u8], out: &mut [u8; LONGEST]) -> Option<usize>
    requires { length place.now ≡ 64 }
    ensures size { result ≡ option_map length (string_in place.now) }
    ensures copied { out.new ≡ with_string (string_in place.now) out.old }
{
    let n = usize::from(place[1]);
    if place[0] != STRING || n > LONGEST {
        return None;
    }
    out[..n].copy_from_slice(&place[4..4 + n]);
    Some(n)
}

impl SettingsMemory for Battery {
    ghost meaning = { λ b. battery_meaning b.image };

    ghost limits = { λ b. battery_limits b.image };

    ghost fixed = { λ b c. refl };

    fn keep(&mut self, section: u8, bytes: &[u8]) -> Result<(), Refusal>
        ensures answer { result ≡ keep_answer (battery_meaning self.old.image) section bytes.now }
        ensures after { battery_meaning self.new.image ≡ keep_after (battery_meaning self.old.image) section bytes.now }
        ensures image { self.new.image ≡ keep_image self.old.image section bytes.now }
        ensures accepts { is_ok result ≡ keepable section bytes.now }
    {
        let at = place(section)?;
        let string = ShortString::try_from(bytes)?;
        fill(&mut self.image, at, string);
        Ok(())
    }

    fn erase(&mut self, section: u8) -> Result<(), Refusal>
        ensures answer { result ≡ erase_answer (battery_meaning self.old.image) section }
        ensures after { battery_meaning self.new.image ≡ erase_after (battery_meaning self.old.image) section }
        ensures image { self.new.image ≡ erase_image self.old.image section }
        ensures accepts { is_ok result ≡ known section }
    {
        let at = place(section)?;
        clear(&mut self.image, at);
        Ok(())
    }

    fn read(&self, section: u8, out: &mut [u8]) -> Result<Option<usize>, Refusal> {
        let start = place(section)?;
        let room = out.first_chunk_mut().ok_or(Refusal::BufferTooShort)?;
        Ok(copy(&self.image[start..start + PLACE], room))
    }

    fn left(&self) -> usize {
        0
    }

    fn price(&self) -> usize {
        0
    }
}
