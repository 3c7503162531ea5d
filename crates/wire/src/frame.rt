// A frame: its sum, and the writer.
ghost use Rattle.std.specs.Prelude.{◌≡◌, length};
ghost use Rattle.wire.specs.Frames.{frame_sum, frame, lawful_length};
ghost use Rattle.wire.specs.Writes.{frame_written};

use crate::item::Frame;
use crate::laying::Parts;
use crate::refusal::Refusal;

pub const LEAD: [u8; 2] = [0xba, 0xce];

// Whether a payload may have this length.
pub fn is_lawful_length(len: usize) -> bool
    ensures { result ≡ lawful_length len }
{
    len % 4 == 0 && len <= 64
}

impl Frame<'_> {
    // The sum that ends the frame, of a payload of any length.
    #[tactic(auto, using(crate::proofs::Sums::all_words))]
    pub fn sum(self) -> u32
        ensures { result ≡ frame_sum self.entry.class self.entry.id self.entry.payload.now }
    {
        let length = (self.payload.len() % 0x1_0000_0000) as u32;
        let mut sum = u32::from_le_bytes([0, 0, self.class, self.id]).wrapping_add(length);
        for word in self.payload.as_chunks::<4>().0 {
            sum = sum.wrapping_add(u32::from_le_bytes(*word));
        }
        sum
    }

    // Writes the frame to the start of the caller's `out` and gives its length.
    pub fn write(self, out: &mut [u8]) -> Result<usize, Refusal>
        ensures { (result, out.new) ≡ frame_written self.entry.class self.entry.id self.entry.payload.now out.old }
    {
        let len = self.payload.len();
        if !is_lawful_length(len) {
            return Err(Refusal::PayloadLength);
        }
        let [low, high] = (len as u16).to_le_bytes();
        let form = Parts {
            head: &[LEAD[0], LEAD[1], low, high, self.class, self.id],
            middle: self.payload,
            tail: &self.sum().to_le_bytes(),
        };
        form.write(out)
    }
}
