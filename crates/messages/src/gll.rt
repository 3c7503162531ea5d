// GLL: position and time.
ghost use Rattle.std.specs.Prelude.{◌≡◌};
ghost use Rattle.wire.specs.Sentences.{sentence};
ghost use Rattle.bodies.specs.Bodies.{gll_body};
ghost use Rattle.bodies.specs.Laws.{Tells, gll_numbers};
ghost use Rattle.messages.specs.Lines.{written};
ghost use Rattle.bodies.proofs.Tells.{gll_good, gll_tells};

use crate::address::start;
use crate::line::Line;
use crate::sentence::Sentence;
use fix::CheckedFix;
use settings::Systems;

pub struct Gll;

impl Sentence for Gll {
    ghost body = { gll_body };

    ghost Tells = { λ s f. Tells (λ t g. sentence (gll_body t g)) gll_numbers s f };

    ghost good = { gll_good };

    ghost tells = { gll_tells };

    fn body(fix: &CheckedFix, systems: Systems) -> Line
        ensures { written result ≡ gll_body systems.mask fix.now }
    {
        let mut line = start(systems, b"GLL");
        match fix.position {
            Some(position) => {
                line.place(&position);
                line.time(&fix.time);
                line.field(b"A");
                line.field(b"A");
            }
            None => {
                line.no_place();
                line.time(&fix.time);
                line.field(b"V");
                line.field(b"N");
            }
        }
        line
    }
}
