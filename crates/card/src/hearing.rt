// Reading bytes: each frame and sentence is judged, acts and is answered at its place.
ghost use Rattle.std.specs.Prelude.{◌≡◌, ◌+◌, ◌<◌, ◌≤◌, List, length, drop, Ok};
ghost use Rattle.wire.specs.Seen.{item_of};
ghost use Rattle.wire.specs.Reading.{reading};
ghost use Rattle.rule.specs.Events.{Event};
ghost use Rattle.rule.specs.Words.{State, Follows};
ghost use Rattle.rule.specs.Saying.{Said, spoken, told, opened};
ghost use Rattle.rule.specs.Calls.{items};
ghost use Rattle.inforce.specs.Has.{state_of};
ghost use Rattle.card.specs.Hearing.{most, Heard};

use crate::answers::{accepts, answer, turns_down};
use crate::tally::Tally;
use commands::decode;
use inforce::InForce;
use memory::{Refusal, SettingsMemory};
use wire::{Ending, Found, Item, Place, read_next};

// One frame or sentence: it acts, and what it draws is written.
// Reply and tally come apart: a struct of both would hold the caller's loan, and have to say how that ends.
fn hear_item<M: SettingsMemory>(
    inside: &mut InForce<M>,
    item: Item<'_>,
    reply: &mut [u8],
    tally: &mut Tally,
) -> Result<(), Refusal>
    requires room { tally.old.written + most (item_of item) ≤ length reply.old }
    requires small { tally.old.accepted + tally.old.down < 1000 }
    ensures done { result ≡ Ok tt }
    ensures behind { drop tally.new.written reply.new ≡ drop tally.new.written reply.old }
    ensures more { tally.old.written ≤ tally.new.written }
    ensures few { tally.new.written ≤ tally.old.written + most (item_of item.entry) }
    ensures one { tally.new.accepted + tally.new.down ≤ tally.old.accepted + tally.old.down + 1 }
    ensures heard { (b : State) (s : Said) → Heard b s tally.old reply.old (state_of M.meaning inside.old) → Heard b (spoken b s (item_of item.entry)) tally.new reply.new (state_of M.meaning inside.new) }
{
    let outcome = inside.obey(decode(item))?;
    let n = answer(
        item,
        outcome,
        inside.settings(),
        &mut reply[tally.written..],
    );
    tally.written += n;
    tally.accepted += accepts(outcome);
    tally.down += turns_down(outcome);
    Ok(())
}

// Reads the bytes from the first on; the place is then that of the first unread byte.
pub(crate) fn hear_all<M: SettingsMemory>(
    inside: &mut InForce<M>,
    bytes: &[u8],
    ending: Ending,
    reply: &mut [u8],
    place: &mut Place,
    tally: &mut Tally,
) -> Result<(), Refusal>
    requires few { length bytes.now ≤ 337 }
    requires room { 2304 ≤ length reply.old }
    requires first { place.old.at ≡ 0 }
    requires none { tally.old ≡ record { written = 0; accepted = 0; down = 0 } }
    ensures done { result ≡ Ok tt }
    ensures within { place.new.at ≤ length bytes.now }
    ensures rest { drop place.new.at bytes.now ≡ (reading ending bytes.now 0).unread }
    ensures fits { tally.new.written ≤ length reply.new }
    ensures behind { drop tally.new.written reply.new ≡ drop tally.new.written reply.old }
    ensures heard { (b : State) (h : List Event) → Follows b h (state_of M.meaning inside.old) → Heard b (told b (opened h) (items ending bytes.now)) tally.new reply.new (state_of M.meaning inside.new) }
{
    while let Found::Good(_, item) = read_next(bytes, ending, place) {
        hear_item(inside, item, reply, tally)?;
    }
    Ok(())
}
