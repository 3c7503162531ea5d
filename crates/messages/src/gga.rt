// GGA: the position and how it was found.
ghost use Rattle.std.specs.Prelude.{◌≡◌};
ghost use Rattle.wire.specs.Sentences.{sentence};
ghost use Rattle.bodies.specs.Bodies.{gga_body};
ghost use Rattle.bodies.specs.Laws.{Tells, gga_numbers};
ghost use Rattle.messages.specs.Lines.{written};
ghost use Rattle.bodies.proofs.Tells.{gga_good, gga_tells};

use crate::address::start;
use crate::line::Line;
use crate::sentence::Sentence;
use fix::CheckedFix;
use settings::Systems;

pub struct Gga;

impl Sentence for Gga {
    ghost body = { gga_body };

    ghost Tells = { λ s f. Tells (λ t g. sentence (gga_body t g)) gga_numbers s f };

    ghost good = { gga_good };

    ghost tells = { gga_tells };

    fn body(fix: &CheckedFix, systems: Systems) -> Line
        ensures { written result ≡ gga_body systems.mask fix.now }
    {
        let mut line = start(systems, b"GGA");
        line.time(&fix.time);
        match fix.position {
            Some(position) => {
                line.place(&position);
                line.field(b"1");
                line.number(2, u32::from(fix.satellites));
                line.hundredths(u32::from(position.hdop));
                line.metres(position.altitude);
            }
            None => {
                line.no_place();
                line.field(b"0");
                line.number(2, u32::from(fix.satellites));
                line.field(b"");
                line.field(b"");
            }
        }
        line.field(b"M");
        line.field(b"0.00");
        line.field(b"M");
        line.field(b"");
        line.field(b"");
        line
    }
}
