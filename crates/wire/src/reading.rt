// Reading a run of bytes, one good frame or sentence at a time.
ghost use Rattle.std.specs.Prelude.{◌≡◌, ◌+◌, ◌-◌, ◌<◌, length};
ghost use Rattle.wire.specs.Reading.{ended_by, reading, onward};
ghost use Rattle.wire.specs.Seen.{seen, spent, Room, told, leaves, Stands};

use crate::item::Item;
use crate::place::Place;
use crate::tries::{Miss, try_here, without_more};

// What follows the bytes: more may come, or a pause, at which every unfinished try fails.
#[derive(Clone, Copy, Debug, PartialEq, Eq)]
pub enum Ending {
    More,
    Pause,
}

// What reading came to first: a good item and the place of its lead byte, an unfinished try's place, or the end.
// Three cases by name: an `Option<Result<(usize, Item), usize>>` would have a name for none of them.
#[derive(Clone, Copy, Debug, PartialEq, Eq)]
pub enum Found<'a> {
    Good(usize, Item<'a>),
    Unfinished(usize),
    End,
}

// What a try came to, with what follows the bytes.
fn end_by(tried: Result<Item<'_>, Miss>, ending: Ending) -> Result<Item<'_>, Miss>
    ensures verdict { seen result ≡ ended_by ending (seen tried.entry) }
    ensures spends { spent (seen result) ≡ spent (seen tried.entry) }
{
    match ending {
        Ending::More => tried,
        Ending::Pause => without_more(tried),
    }
}

// A try at the bytes from the place on, with what follows them.
fn try_at<'b>(bytes: &'b [u8], ending: Ending, place: &mut Place) -> Result<Item<'b>, Miss>
    requires { place.old.at < length bytes.now }
    ensures reads { reading ending bytes.now place.old.at ≡ onward ending bytes.now place.old.at (seen result) }
    ensures place { place.new.at ≡ place.old.at + spent (seen result) }
    ensures room { Room (length bytes.now - place.old.at) (seen result) }
{
    let lead = place.at;
    end_by(try_here(&bytes[lead..], place), ending)
}

// The next good frame or sentence from the place on, and the place behind it.
// Bytes, ending and place come apart: a reader of the three would have to say at each call that bytes and ending stay.
pub fn read_next<'b>(bytes: &'b [u8], ending: Ending, place: &mut Place) -> Found<'b>
    ensures reads { reading ending bytes.now place.old.at ≡ told bytes.now result (reading ending bytes.now place.new.at) }
    ensures place { place.new.at ≡ leaves bytes.now place.old.at result }
    ensures stands { Stands bytes.now place.old.at result }
{
    // A `while`, since the place is the caller's and each try moves it: a `for` would count a second one beside it.
    while place.at < bytes.len() {
        let lead = place.at;
        match try_at(bytes, ending, place) {
            Ok(item) => return Found::Good(lead, item),
            Err(Miss::Unfinished) => return Found::Unfinished(lead),
            Err(Miss::Failed) => place.at += 1,
        }
    }
    Found::End
}
