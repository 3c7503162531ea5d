// A try at what begins with a lead byte.
ghost use Rattle.std.specs.Prelude.{◌≡◌, ◌+◌, ◌^◌, ◌<◌, ◌≤◌, length, take, drop, if◌then◌else◌, OnOk, Ok, Err, nat_lt, slice_index};
ghost use Rattle.numbers.specs.Bytes.{bytes4};
ghost use Rattle.wire.specs.Tries.{stand, frame_try, is_digit, star_of, body_to, digits_stand, from_cr, from_star, ended, sentence_try, try_of};
ghost use Rattle.wire.specs.Seen.{seen, spent};
ghost use Rattle.wire.specs.declared.tries.Miss.TheVariants.{Unfinished};

use crate::frame::{LEAD, is_lawful_length};
use crate::item::{Frame, Item};
use crate::place::{Attempt, Place};
use crate::sentence::{body_run, checksum_of, hex_digit};

// The longest sentence, in bytes.
const LONGEST: usize = 82;

// Why a try came to no item: the bytes ran out before a rule was broken, or one is broken.
#[derive(Clone, Copy, Debug, PartialEq, Eq)]
pub enum Miss {
    Unfinished,
    Failed,
}

// The byte at a place, once it is there.
fn byte(bytes: &[u8], i: usize) -> Result<u8, Miss>
    ensures { result ≡ (if nat_lt i (length bytes.now) then Ok (slice_index bytes.now i) else Err Unfinished) }
{
    bytes.get(i).copied().ok_or(Miss::Unfinished)
}

// Whether the four bytes of `sum` stand at a place.
fn stands(bytes: &[u8], at: usize, sum: u32) -> bool
    requires { at + 4 ≤ length bytes.now }
    ensures { result ≡ stand bytes.now at (bytes4 sum) }
{
    &bytes[at..at + 4] == sum.to_le_bytes().as_slice()
}

// The part that starts after the header.
fn payload_of(bytes: &[u8], len: usize) -> &[u8]
    requires { len + 6 ≤ length bytes.now }
    ensures part { result.now ≡ take len (drop 6 bytes.now) }
    ensures long { length result.now ≡ len }
{
    &bytes[6..6 + len]
}

// A try at a frame, of which the lead byte is there.
// Bytes and place, or bytes and star, come apart in each try: a struct of both would have to say besides that the bytes stay.
fn try_frame<'b>(bytes: &'b [u8], place: &mut Place) -> Result<Item<'b>, Miss>
    requires { place.old.at + length bytes.now < 2 ^ 64 }
    ensures verdict { seen result ≡ frame_try bytes.now }
    ensures place { place.new.at ≡ place.old.at + spent (seen result) }
{
    let mut attempt = Attempt::begin(place);
    if byte(bytes, 1)? != LEAD[1] {
        return Err(Miss::Failed);
    }
    attempt.place.at += 2;
    let high = byte(bytes, 3)?;
    let len = usize::from(u16::from_le_bytes([bytes[2], high]));
    attempt.place.at += 2;
    if !is_lawful_length(len) {
        return Err(Miss::Failed);
    }
    byte(bytes, len + 9)?;
    let frame = Frame {
        class: bytes[4],
        id: bytes[5],
        payload: payload_of(bytes, len),
    };
    attempt.place.at += 2 + len;
    if !stands(bytes, len + 6, frame.sum()) {
        return Err(Miss::Failed);
    }
    attempt.place.at += 4;
    attempt.back = attempt.place.at;
    Ok(Item::Frame(frame))
}

fn is_digit(b: u8) -> bool
    ensures { result ≡ is_digit b }
{
    matches!(b, b'0'..=b'9' | b'A'..=b'F')
}

// The bytes between the lead byte and the star.
fn body_to(bytes: &[u8], star: usize) -> &[u8]
    requires { (1 ≤ star) × (star ≤ length bytes.now) }
    ensures part { result.now ≡ body_to bytes.now star }
    ensures long { length result.now + 1 ≡ star }
{
    &bytes[1..star]
}

// Whether the two digits behind the star are the body's checksum.
fn digits_stand(bytes: &[u8], star: usize) -> bool
    requires { (1 ≤ star) × (star + 3 ≤ length bytes.now) }
    ensures { result ≡ digits_stand bytes.now star }
{
    let sum = checksum_of(body_to(bytes, star));
    bytes[star + 1] == hex_digit(sum / 16) && bytes[star + 2] == hex_digit(sum % 16)
}

// The sentence whose two digits are there, once CR and LF are; the digits' value is judged at LF.
fn from_cr(bytes: &[u8], star: usize) -> Result<Item<'_>, Miss>
    requires { (1 ≤ star) × (star + 3 ≤ length bytes.now) }
    ensures verdict { seen result ≡ from_cr bytes.now star }
    ensures long { OnOk result (spent (seen result) ≡ star + 5) }
    ensures within { OnOk result (star + 5 ≤ length bytes.now) }
{
    if byte(bytes, star + 3)? != b'\r' {
        return Err(Miss::Failed);
    }
    if byte(bytes, star + 4)? != b'\n' || !digits_stand(bytes, star) {
        return Err(Miss::Failed);
    }
    Ok(Item::Sentence(body_to(bytes, star)))
}

// A try at a sentence's bytes up to its longest size.
fn try_sized<'b>(bytes: &'b [u8], place: &mut Place) -> Result<Item<'b>, Miss>
    requires { (0 < length bytes.now) × (place.old.at + length bytes.now < 2 ^ 64) }
    ensures verdict { seen result ≡ from_star bytes.now (star_of bytes.now) }
    ensures place { place.new.at ≡ place.old.at + spent (seen result) }
{
    let mut attempt = Attempt::begin(place);
    let star = 1 + body_run(&bytes[1..]);
    attempt.place.at += star;
    if byte(bytes, star)? != b'*' {
        return Err(Miss::Failed);
    }
    if !is_digit(byte(bytes, star + 1)?) || !is_digit(byte(bytes, star + 2)?) {
        return Err(Miss::Failed);
    }
    attempt.place.at += 3;
    let item = from_cr(bytes, star)?;
    attempt.place.at += 2;
    attempt.back = attempt.place.at;
    Ok(item)
}

// What a try came to, where no more bytes are waited for.
pub fn without_more(tried: Result<Item<'_>, Miss>) -> Result<Item<'_>, Miss>
    ensures verdict { seen result ≡ ended (seen tried.entry) }
    ensures spends { spent (seen result) ≡ spent (seen tried.entry) }
{
    tried.or(Err(Miss::Failed))
}

// A try at a sentence, of which the lead byte is there.
fn try_sentence<'b>(bytes: &'b [u8], place: &mut Place) -> Result<Item<'b>, Miss>
    requires { (0 < length bytes.now) × (place.old.at + length bytes.now < 2 ^ 64) }
    ensures verdict { seen result ≡ sentence_try bytes.now }
    ensures place { place.new.at ≡ place.old.at + spent (seen result) }
{
    if bytes.len() < LONGEST {
        return try_sized(bytes, place);
    }
    without_more(try_sized(&bytes[0..LONGEST], place))
}

// A try at whatever begins at the place.
pub fn try_here<'b>(bytes: &'b [u8], place: &mut Place) -> Result<Item<'b>, Miss>
    requires { place.old.at + length bytes.now < 2 ^ 64 }
    ensures verdict { seen result ≡ try_of bytes.now }
    ensures place { place.new.at ≡ place.old.at + spent (seen result) }
{
    match bytes {
        [] => Err(Miss::Unfinished),
        [0xba, ..] => try_frame(bytes, place),
        [b'$', ..] => try_sentence(bytes, place),
        _ => Err(Miss::Failed),
    }
}
