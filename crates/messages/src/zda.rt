// ZDA: date and time.
ghost use Rattle.std.specs.Prelude.{◌≡◌};
ghost use Rattle.wire.specs.Sentences.{sentence};
ghost use Rattle.bodies.specs.Bodies.{zda_body};
ghost use Rattle.bodies.specs.Laws.{Tells, zda_numbers};
ghost use Rattle.messages.specs.Lines.{written};
ghost use Rattle.bodies.proofs.Tells.{zda_good, zda_tells};

use crate::address::start;
use crate::line::Line;
use crate::sentence::Sentence;
use fix::CheckedFix;
use settings::Systems;

pub struct Zda;

impl Sentence for Zda {
    ghost body = { zda_body };

    ghost Tells = { λ s f. Tells (λ t g. sentence (zda_body t g)) zda_numbers s f };

    ghost good = { zda_good };

    ghost tells = { zda_tells };

    fn body(fix: &CheckedFix, systems: Systems) -> Line
        ensures { written result ≡ zda_body systems.mask fix.now }
    {
        let mut line = start(systems, b"ZDA");
        line.time(&fix.time);
        line.number(2, u32::from(fix.date.day));
        line.number(2, u32::from(fix.date.month));
        line.number(4, u32::from(fix.date.year));
        line.field(b"00");
        line.field(b"00");
        line
    }
}
