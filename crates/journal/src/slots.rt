// The slots of a journal, and the bytes in them.
ghost use Rattle.std.specs.Prelude.{◌≡◌, IfSome, ℕ, List, slice_index_or, ◌+◌, ◌*◌, ◌<◌, ◌≤◌, true, length, is_ok, if◌then◌else◌, Ok, nat_lt};
ghost use Rattle.std.specs.Option.{option_map};
ghost use Rattle.memory.specs.Bytes.{over_from};
ghost use Rattle.memory.specs.Memory.{known, refuse, with_string, read_answer, read_out};
ghost use Rattle.journal.specs.Latest.{Found};
ghost use Rattle.journal.specs.Writes.{header, written, appended, Spends};
ghost use Rattle.journal.specs.Slots.{slots, slot, free, names, well_formed, content, used, latest, writes_left, journal_meaning};

use memory::{LONGEST, Refusal, ShortString};

// How many bytes a slot has, and how many from the start the slots lie in.
const SLOT: usize = 64;

const LIMIT: usize = 65536;

// The bytes of one slot.
type Slot = [u8; SLOT];

// What byte 0 of a slot says.
const FREE: u8 = 255;

const KEEP: u8 = 1;

const ERASE: u8 = 0;

// Image and section come apart in what follows: one is the journal's, the other the call's.

// How many slots the image has.
fn slot_count(image: &[u8]) -> usize
    ensures count { result ≡ slots image.now }
    ensures within { 64 * result ≤ length image.now }
    ensures few { result ≤ 1024 }
{
    image.len().min(LIMIT) / SLOT
}

// The slots of the image, in order.
fn slots_of(image: &[u8]) -> &[Slot]
    ensures count { length result.now ≡ slots image.now }
    ensures each { (i : ℕ) (d : List ℕ) → i < slots image.now → slice_index_or result.now i d ≡ slot image.now i }
{
    image[..SLOT * slot_count(image)].as_chunks::<SLOT>().0
}

// Whether a slot is free.
fn is_free(slot: &Slot) -> bool
    ensures { result ≡ free slot.now }
{
    slot[0] == FREE
}

// How many slots there are up to the last one not free.
fn used_slots(image: &[u8]) -> usize
    ensures count { result ≡ used image.now (slots image.now) }
    ensures within { result ≤ slots image.now }
{
    let last = slots_of(image).iter().rposition(|slot| !is_free(slot));
    last.map_or(0, |i| i + 1)
}

// How many slots there are after the last one not free.
pub(crate) fn writes_left(image: &[u8]) -> usize
    ensures { result ≡ writes_left image.now }
{
    slot_count(image) - used_slots(image)
}

// Whether a slot is well formed and names the section.
fn names_section(slot: &Slot, section: u8) -> bool
    ensures { result ≡ names slot.now section }
{
    let shaped = match slot[0] {
        KEEP => usize::from(slot[2]) <= LONGEST,
        ERASE => slot[2] == 0,
        _ => false,
    };
    shaped && memory::is_known(slot[1]) && slot[3] == 0 && section == slot[1]
}

// Copies what a slot keeps, if it keeps a string, to the start of `out`, and gives its length.
// The battery's `copy` has its length in another byte and tests it: one function for both would take the byte and the test, and be no plainer.
fn copy_content(slot: &Slot, out: &mut [u8; LONGEST]) -> Option<usize>
    requires { well_formed slot.now ≡ true }
    ensures size { result ≡ option_map length (content slot.now) }
    ensures copied { out.new ≡ with_string (content slot.now) out.old }
{
    if slot[0] != KEEP {
        return None;
    }
    let n = usize::from(slot[2]);
    out[..n].copy_from_slice(&slot[4..4 + n]);
    Some(n)
}

// The latest well-formed slot that names the section.
pub(crate) fn latest_slot(image: &[u8], section: u8) -> Option<usize>
    ensures { Found image.now section (slots image.now) result }
{
    let slots = slots_of(image);
    slots.iter().rposition(|slot| names_section(slot, section))
}

// Copies the string of a section, if there is one, to the start of `out`, and gives its length.
fn copy_latest(image: &[u8], section: u8, out: &mut [u8; LONGEST]) -> Option<usize>
    ensures size { result ≡ option_map length (latest image.now section (slots image.now)) }
    ensures copied { out.new ≡ with_string (latest image.now section (slots image.now)) out.old }
{
    let i = latest_slot(image, section)?;
    copy_content(&slots_of(image)[i], out)
}

// Reads the string of a section into the caller's buffer.
pub(crate) fn read_section(
    image: &[u8],
    section: u8,
    out: &mut [u8],
) -> Result<Option<usize>, Refusal>
    ensures answer { result ≡ read_answer (journal_meaning image.now) section (length out.old) }
    ensures copied { out.new ≡ read_out (journal_meaning image.now) section out.old }
{
    memory::check_section(section)?;
    let room = out.first_chunk_mut().ok_or(Refusal::BufferTooShort)?;
    Ok(copy_latest(image, section, room))
}

// Writes an entry into slot i.
fn write_slot(image: &mut [u8], i: usize, kind: u8, section: u8, bytes: &[u8])
    requires slot { i < slots image.old }
    requires short { length bytes.now ≤ 56 }
    ensures { image.new ≡ over_from (64 * i + 4) bytes.now (over_from (64 * i) (header kind section (length bytes.now)) image.old) }
{
    let start = SLOT * i;
    let n = bytes.len();
    image[start..start + 4].copy_from_slice(&[kind, section, n as u8, 0]);
    image[start + 4..start + 4 + n].copy_from_slice(bytes);
}

// Writes an entry into the slot behind the last used one: a string to keep, or none to erase.
fn append(image: &mut [u8], section: u8, string: Option<ShortString>) -> Result<(), Refusal>
    ensures answer { result ≡ refuse (nat_lt (writes_left image.old) 1) Refusal.NoWritesLeft (Ok tt) }
    ensures after { image.new ≡ (if is_ok result then appended image.old (written section (option_map (λ s. s.bytes.now) string.entry)) else image.old) }
    ensures fits { IfSome (option_map (λ s. s.bytes.now) string.entry) (λ b. length b ≤ 56) }
{
    let next = used_slots(image);
    if next >= slot_count(image) {
        return Err(Refusal::NoWritesLeft);
    }
    match string {
        Some(string) => write_slot(image, next, KEEP, section, string.bytes),
        None => write_slot(image, next, ERASE, section, &[]),
    }
    Ok(())
}

// Spends a slot on keeping a string of a section, or on erasing it where there is none.
pub(crate) fn spend(
    image: &mut [u8],
    section: u8,
    string: Option<ShortString>,
) -> Result<(), Refusal>
    requires { known section ≡ true }
    ensures { Spends image.old image.new section (option_map (λ s. s.bytes.now) string.entry) result }
{
    append(image, section, string)
}
