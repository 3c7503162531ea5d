// A text under way, in a room of fixed size that never allocates.
#![tactic(auto)]

ghost use Rattle.std.specs.Prelude.{◌≡◌, ℕ, ◌+◌, ◌≤◌, List, [], ◌∷◌, ◌++◌, min, length, take, decimal};
ghost use Rattle.texts.specs.Decimals.{padded};

use arrayvec::ArrayVec;
use std::marker::Model;

// At most `N` bytes; what does not fit is left off.
#[derive(Drop)]
pub struct Text<const N: usize> {
    bytes: ArrayVec<u8, N>,
}

// Clauses see the bytes that are written.
impl<const N: usize> Model for Text<N> {
    ghost Value = { List ℕ };

    ghost view = { λ t. t.bytes.items };
}

impl<const N: usize> Text<N> {
    // No byte is written yet.
    pub fn new() -> Self
        ensures { result ≡ [] }
    {
        Text {
            bytes: ArrayVec::new(),
        }
    }

    // What is written so far.
    pub fn as_bytes(&self) -> &[u8]
        ensures value { result.now ≡ self.now }
        ensures fits { length result.now ≤ N }
    {
        self.bytes.as_slice()
    }

    // A byte behind what is written.
    pub fn push(&mut self, byte: u8)
        ensures cut { self.new ≡ take N (self.old ++ byte ∷ []) }
        ensures len { length self.new ≡ min N (length self.old + 1) }
        ensures whole { length self.old + 1 ≤ N → self.new ≡ self.old ++ byte ∷ [] }
    {
        if !self.bytes.is_full() {
            self.bytes.push(byte);
        }
    }

    // Bytes behind what is written.
    pub fn append(&mut self, text: &[u8])
        ensures cut { self.new ≡ take N (self.old ++ text.now) }
        ensures len { length self.new ≡ min N (length self.old + length text.now) }
        ensures whole { length self.old + length text.now ≤ N → self.new ≡ self.old ++ text.now }
    {
        let room = self.bytes.remaining_capacity().min(text.len());
        let _ = self.bytes.try_extend_from_slice(&text[..room]);
    }

    // A number in so many digits.
    // Not by `write!`: a format answers a Result that cannot fail here, and writes more digits where a number has more.
    #[tactic(auto, using(crate::proofs::Cuts::padded_none))]
    pub fn padded(&mut self, width: usize, n: u32)
        ensures cut { self.new ≡ take N (self.old ++ padded width n) }
        ensures len { length self.new ≡ min N (length self.old + width) }
        ensures whole { length self.old + width ≤ N → self.new ≡ self.old ++ padded width n }
    {
        if width == 0 {
            return self.append(b"");
        }
        self.padded(width - 1, n / 10);
        self.push(b'0' + (n % 10) as u8);
    }

    // A number with no leading zero; by digits for the same reason.
    #[tactic(auto, using(crate::proofs::Cuts::length_cut, crate::proofs::Cuts::whole_of, std::proofs::lemmas::Fmt::decimal_digit))]
    pub fn decimal(&mut self, n: u32)
        ensures cut { self.new ≡ take N (self.old ++ decimal n) }
        ensures len { length self.new ≡ min N (length self.old + length (decimal n)) }
        ensures whole { length self.old + length (decimal n) ≤ N → self.new ≡ self.old ++ decimal n }
    {
        if n < 10 {
            return self.push(b'0' + n as u8);
        }
        self.decimal(n / 10);
        self.push(b'0' + (n % 10) as u8);
    }
}
