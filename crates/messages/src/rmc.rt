// RMC: the least that navigation needs.
ghost use Rattle.std.specs.Prelude.{◌≡◌};
ghost use Rattle.wire.specs.Sentences.{sentence};
ghost use Rattle.bodies.specs.Bodies.{rmc_body};
ghost use Rattle.bodies.specs.Laws.{Tells, rmc_numbers};
ghost use Rattle.messages.specs.Lines.{written};
ghost use Rattle.bodies.proofs.Tells.{rmc_good, rmc_tells};

use crate::address::start;
use crate::line::Line;
use crate::sentence::Sentence;
use fix::CheckedFix;
use settings::Systems;

pub struct Rmc;

impl Sentence for Rmc {
    ghost body = { rmc_body };

    ghost Tells = { λ s f. Tells (λ t g. sentence (rmc_body t g)) rmc_numbers s f };

    ghost good = { rmc_good };

    ghost tells = { rmc_tells };

    fn body(fix: &CheckedFix, systems: Systems) -> Line
        ensures { written result ≡ rmc_body systems.mask fix.now }
    {
        let mut line = start(systems, b"RMC");
        line.time(&fix.time);
        match fix.position {
            Some(position) => {
                line.field(b"A");
                line.place(&position);
                line.thousandths(position.speed);
                line.thousandths(position.course);
                line.date(&fix.date);
                line.field(b"");
                line.field(b"");
                line.field(b"A");
            }
            None => {
                line.field(b"V");
                line.no_place();
                line.field(b"");
                line.field(b"");
                line.date(&fix.date);
                line.field(b"");
                line.field(b"");
                line.field(b"N");
            }
        }
        line
    }
}
