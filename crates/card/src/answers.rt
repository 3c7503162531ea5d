// What a frame draws, written to the start of an output.
// The output is a slice of at least 66 bytes: an array would have to be tested out of the reply.
ghost use Rattle.std.specs.Prelude.{◌≡◌, ◌+◌, ◌≤◌, true, [], ◌∷◌, length};
ghost use Rattle.wire.specs.Frames.{frame, lawful_length};
ghost use Rattle.wire.specs.Seen.{item_of};
ghost use Rattle.commands.specs.Commands.{told_payload};
ghost use Rattle.rule.specs.Calls.{over};
ghost use Rattle.rule.specs.Saying.{drawn, answers_to, accepts, turns_down, written, AllLawful};
ghost use Rattle.inforce.specs.Has.{settings_of};
ghost use Rattle.card.specs.Hearing.{most};

use commands::{Outcome, Query};
use settings::Settings;
use wire::{Frame, Item};

// The class of the answers ACK and NACK.
const ACKNOWLEDGE: u8 = 0x05;

// Writes a lawful frame that fits, and gives its length.
fn put_frame(answer: Frame<'_>, out: &mut [u8]) -> usize
    requires lawful { lawful_length (length answer.payload.now) ≡ true }
    requires room { length answer.payload.now + 10 ≤ length out.old }
    ensures size { result ≡ length answer.entry.payload.now + 10 }
    ensures wrote { out.new ≡ over (frame answer.entry.class answer.entry.id answer.entry.payload.now) out.old }
{
    answer.write(out).unwrap_or(0)
}

// Acknowledges a frame, by the id of ACK, 0x01, or of NACK, 0x00.
fn acknowledge(id: u8, sent: Frame<'_>, out: &mut [u8]) -> usize
    requires { 66 ≤ length out.old }
    ensures size { result ≡ 14 }
    ensures wrote { out.new ≡ over (frame 0x05 id (sent.entry.class ∷ sent.entry.id ∷ 0 ∷ 0 ∷ [])) out.old }
{
    let answer = Frame {
        class: ACKNOWLEDGE,
        id,
        payload: &[sent.class, sent.id, 0, 0],
    };
    put_frame(answer, out)
}

// Tells a setting in force, in the same frame as its query.
fn put_told(sent: Frame<'_>, query: Query, settings: &Settings, out: &mut [u8]) -> usize
    requires { 66 ≤ length out.old }
    ensures size { result ≡ length (told_payload query (settings_of settings.now)) + 10 }
    ensures wrote { out.new ≡ over (frame sent.entry.class sent.entry.id (told_payload query (settings_of settings.now))) out.old }
    ensures lawful { lawful_length (length (told_payload query (settings_of settings.now))) ≡ true }
    ensures few { result ≤ 66 }
{
    let mut buffer = [0; 56];
    let n = query.payload(settings, &mut buffer);
    let answer = Frame {
        payload: &buffer[..n],
        ..sent
    };
    put_frame(answer, out)
}

// Writes what a frame draws, and gives how many bytes that are.
fn answer_frame(sent: Frame<'_>, outcome: Outcome, settings: &Settings, out: &mut [u8]) -> usize
    requires { 66 ≤ length out.old }
    ensures size { result ≡ length (written (drawn sent.entry.class sent.entry.id outcome (settings_of settings.now))) }
    ensures wrote { out.new ≡ over (written (drawn sent.entry.class sent.entry.id outcome (settings_of settings.now))) out.old }
    ensures lawful { AllLawful (drawn sent.entry.class sent.entry.id outcome (settings_of settings.now)) }
    ensures few { result ≤ 66 }
{
    match outcome {
        Outcome::PassedOver => 0,
        Outcome::TurnedDown => acknowledge(0x00, sent, out),
        Outcome::Done => acknowledge(0x01, sent, out),
        Outcome::Told(query) => put_told(sent, query, settings, out),
    }
}

// The same for a frame or a sentence; a sentence draws nothing.
pub(crate) fn answer(item: Item<'_>, outcome: Outcome, settings: &Settings, out: &mut [u8]) -> usize
    requires { most (item_of item) ≤ length out.old }
    ensures size { result ≡ length (written (answers_to (item_of item.entry) outcome (settings_of settings.now))) }
    ensures wrote { out.new ≡ over (written (answers_to (item_of item.entry) outcome (settings_of settings.now))) out.old }
    ensures lawful { AllLawful (answers_to (item_of item.entry) outcome (settings_of settings.now)) }
    ensures few { result ≤ most (item_of item.entry) }
{
    match item {
        Item::Frame(frame) => answer_frame(frame, outcome, settings, out),
        Item::Sentence(_) => 0,
    }
}

// What counts as an accepted command: a number, since the rule counts.
pub(crate) fn accepts(outcome: Outcome) -> usize
    ensures { result ≡ accepts outcome }
{
    match outcome {
        Outcome::PassedOver | Outcome::TurnedDown => 0,
        Outcome::Done | Outcome::Told(_) => 1,
    }
}

// What counts as a command turned down, likewise.
pub(crate) fn turns_down(outcome: Outcome) -> usize
    ensures { result ≡ turns_down outcome }
{
    match outcome {
        Outcome::TurnedDown => 1,
        Outcome::PassedOver | Outcome::Done | Outcome::Told(_) => 0,
    }
}
