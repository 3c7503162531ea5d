// The sentences that go out at a fix, and their writer.
ghost use Rattle.std.specs.Prelude.{◌≡◌, ℕ, ◌≤◌, List, length};
ghost use Rattle.wire.specs.Sentences.{sentence};
ghost use Rattle.wire.specs.Writes.{fitted};
ghost use Rattle.fix.specs.declared.checked.CheckedFix.{CheckedFix};
ghost use Rattle.bodies.specs.Laws.{GoodSentence};
ghost use Rattle.messages.specs.Lines.{written};

use crate::line::Line;
use fix::CheckedFix;
use settings::Systems;
use wire::Refusal;

// A sentence that tells a fix.
// Fix and systems come apart: one arrives, the other is in force, and a struct of both would be made and taken apart at each call.
pub trait Sentence {
    // Its body, by the systems in use and the fix.
    ghost body: { ℕ → CheckedFix → List ℕ };

    // That it tells the numbers which it carries.
    ghost Tells: { ℕ → CheckedFix → Type 0 };

    fn body(fix: &CheckedFix, systems: Systems) -> Line
        ensures { written result ≡ body systems.mask fix.now };

    // A body that fits a line makes a good sentence.
    ghost good: { (systems : ℕ) (fix : CheckedFix) → length (body systems fix) ≤ 76 → GoodSentence (body systems fix) };

    ghost tells: { (systems : ℕ) (fix : CheckedFix) → Tells systems fix };
}

// Writes a sentence to the start of the caller's `out` and gives its length; an output that is too short is refused.
pub fn write_message<S: Sentence>(
    fix: &CheckedFix,
    systems: Systems,
    out: &mut [u8],
) -> Result<usize, Refusal>
    ensures bytes { (result, out.new) ≡ fitted (sentence (S.body systems.mask fix.now)) out.old }
    ensures good { GoodSentence (S.body systems.mask fix.now) }
    ensures tells { S.Tells systems.mask fix.now }
{
    let line = S::body(fix, systems);
    wire::write_sentence(line.as_bytes(), out)
}
