// A form of three parts, laid at the start of an output that is long enough.
ghost use Rattle.std.specs.Prelude.{◌≡◌, ◌+◌, ◌≤◌, ◌++◌, length, drop};
ghost use Rattle.std.proofs.Math.Seq.{paste};
ghost use Rattle.wire.specs.Writes.{fitted};

use crate::refusal::Refusal;

// The parts of a form, at most 82 bytes together.
#[derive(Clone, Copy)]
pub struct Parts<'a> {
    pub head: &'a [u8],
    pub middle: &'a [u8],
    pub tail: &'a [u8],
    ghost few: { length head.now + length middle.now + length tail.now ≤ 82 },
}

// Copies `part` into `out` from `at` on.
fn put(out: &mut [u8], at: usize, part: &[u8])
    requires { at + length part.now ≤ length out.old }
    ensures { out.new ≡ paste out.old at part.now (length part.now) }
{
    out[at..at + part.len()].copy_from_slice(part);
}

impl Parts<'_> {
    // How many bytes the parts have.
    fn size(self) -> usize
        ensures sum { result ≡ length self.entry.head.now + length self.entry.middle.now + length self.entry.tail.now }
        ensures form { result ≡ length (self.entry.head.now ++ (self.entry.middle.now ++ self.entry.tail.now)) }
    {
        self.head.len() + self.middle.len() + self.tail.len()
    }

    // Copies the parts to the start of `out`, one behind the other.
    fn put(self, out: &mut [u8])
        requires { length self.head.now + length self.middle.now + length self.tail.now ≤ length out.old }
        ensures { out.new ≡ (self.entry.head.now ++ (self.entry.middle.now ++ self.entry.tail.now)) ++ drop (length (self.entry.head.now ++ (self.entry.middle.now ++ self.entry.tail.now))) out.old }
    {
        put(out, 0, self.head);
        put(out, self.head.len(), self.middle);
        put(out, self.head.len() + self.middle.len(), self.tail);
    }

    // Writes the parts to the start of `out`, one behind the other, and gives their length.
    pub fn write(self, out: &mut [u8]) -> Result<usize, Refusal>
        ensures { (result, out.new) ≡ fitted (self.entry.head.now ++ (self.entry.middle.now ++ self.entry.tail.now)) out.old }
    {
        let size = self.size();
        if out.len() < size {
            return Err(Refusal::OutputTooShort);
        }
        self.put(out);
        Ok(size)
    }
}
