// The host's calls on a card.
ghost use Rattle.std.specs.Prelude.{◌≡◌, ◌+◌, ◌≤◌, [], ◌++◌, length};
ghost use Rattle.rule.specs.Words.{State, in_force, found};
ghost use Rattle.rule.specs.Calls.{History, start, hears, send_turn, pause_turn, power_turn, Keeps, Goes};
ghost use Rattle.card.specs.Wholes.{whole_of, answer_of, memory_answer, sheet_answer};

use crate::hearing::hear_all;
use crate::parts::Card;
use crate::refusal::Refusal;
use crate::tally::Tally;
use arrayvec::ArrayVec;
use inforce::InForce;
use memory::SettingsMemory;
use sheets::write_sheet;
use wire::{Ending, Place};

// The most bytes that a send takes.
const LONGEST_SEND: usize = 256;

// The least room for a reply.
const REPLY_ROOM: usize = 2304;

// Fills a vector with two runs of bytes that there is room for, one behind the other.
// In its place: a vector that is handed out is copied on its way, which a short send or a pause would pay for.
fn join<const N: usize>(into: &mut ArrayVec<u8, N>, front: &[u8], back: &[u8])
    requires { length front.now + length back.now ≤ N }
    ensures { into.new.items ≡ front.now ++ back.now }
{
    into.clear();
    let _ = into.try_extend_from_slice(front);
    let _ = into.try_extend_from_slice(back);
}

impl<M: SettingsMemory> Card<M> {
    // A card on a memory: every setting takes its kept value, or the factory value where none is kept.
    pub fn build(memory: M) -> Card<M>
        ensures { Keeps (found (M.meaning memory)) start (whole_of M.meaning result) }
    {
        Card {
            inside: InForce::build(memory),
            unread: ArrayVec::new(),
        }
    }

    // Reads the unread bytes joined with `bytes`.
    fn hear(
        &mut self,
        bytes: &[u8],
        ending: Ending,
        reply: &mut [u8],
    ) -> Result<(usize, usize, usize), memory::Refusal>
        requires few { length bytes.now ≤ 256 }
        requires room { 2304 ≤ length reply.old }
        ensures { (b : State) (h : History) → Keeps b h (whole_of M.meaning self.old) → Goes b (hears b h ending bytes.now) (memory_answer result) reply.old reply.new (whole_of M.meaning self.new) }
    {
        let mut whole = ArrayVec::<u8, 337>::new();
        join(&mut whole, self.unread.as_slice(), bytes);
        let all = whole.as_slice();
        let mut place = Place { at: 0 };
        let mut tally = Tally::default();
        hear_all(&mut self.inside, all, ending, reply, &mut place, &mut tally)?;
        join(&mut self.unread, &all[place.at..], &[]);
        Ok((tally.written, tally.accepted, tally.down))
    }

    // Reads bytes; what is unfinished waits for more. Its three numbers are one tuple, a rule of the project.
    pub fn send(&mut self, bytes: &[u8], reply: &mut [u8]) -> Result<(usize, usize, usize), Refusal>
        ensures { (b : State) (h : History) → Keeps b h (whole_of M.meaning self.old) → Goes b (send_turn b h bytes.now (length reply.old)) (answer_of result) reply.old reply.new (whole_of M.meaning self.new) }
    {
        if bytes.len() > LONGEST_SEND {
            return Err(Refusal::SendTooLong);
        }
        if reply.len() < REPLY_ROOM {
            return Err(Refusal::ReplyTooShort);
        }
        Ok(self.hear(bytes, Ending::More, reply)?)
    }

    // The line pauses: what is unfinished fails, and nothing stays unread.
    pub fn pause(&mut self, reply: &mut [u8]) -> Result<(usize, usize, usize), Refusal>
        ensures { (b : State) (h : History) → Keeps b h (whole_of M.meaning self.old) → Goes b (pause_turn b h (length reply.old)) (answer_of result) reply.old reply.new (whole_of M.meaning self.new) }
    {
        if reply.len() < REPLY_ROOM {
            return Err(Refusal::ReplyTooShort);
        }
        Ok(self.hear(&[], Ending::Pause, reply)?)
    }

    // Power comes back: unread bytes are dropped, and every setting takes its kept or factory value.
    pub fn power(&mut self)
        ensures { (b : State) (h : History) → Keeps b h (whole_of M.meaning self.old) → Keeps b (power_turn h).next (whole_of M.meaning self.new) }
    {
        self.inside.power();
        self.unread.clear();
    }

    // Writes the sheet of the settings in force, and gives its length.
    pub fn sheet(&self, output: &mut [u8]) -> Result<usize, Refusal>
        ensures { (b : State) (h : History) → Keeps b h (whole_of M.meaning self.now) → (answer_of result, output.new) ≡ sheet_answer (in_force b h.events) output.old }
    {
        Ok(write_sheet(self.inside.settings(), output)?)
    }
}
