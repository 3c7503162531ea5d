// Bytes in print.
#![tactic(auto)]

ghost use Rattle.std.specs.Prelude.{Some};
ghost use Rattle.prints.specs.Printed.{pair, in_hex, as_text};

use std::fmt;

// A byte in hex, behind a space.
#[derive(Clone, Copy)]
struct Pair(u8);

impl fmt::Display for Pair {
    ghost output = { λ x. Some (pair x.0) };

    fn fmt<W: fmt::Write>(&self, f: &mut fmt::Formatter<W>) -> fmt::Result {
        let b = self.0;
        write!(f, " {b:02X}")
    }
}

// Bytes in hex, each behind a space.
#[derive(Clone, Copy)]
pub struct Hex<'a>(pub &'a [u8]);

impl fmt::Display for Hex<'_> {
    ghost output = { λ x. Some (in_hex x.0.now) };

    fn fmt<W: fmt::Write>(&self, f: &mut fmt::Formatter<W>) -> fmt::Result {
        for b in self.0 {
            let pair = Pair(*b);
            write!(f, "{pair}")?;
        }
        Ok(())
    }
}

// The printable bytes among some, as text.
#[derive(Clone, Copy)]
pub struct Text<'a>(pub &'a [u8]);

impl fmt::Display for Text<'_> {
    ghost output = { λ x. Some (as_text x.0.now) };

    fn fmt<W: fmt::Write>(&self, f: &mut fmt::Formatter<W>) -> fmt::Result {
        for b in self.0 {
            if *b >= b' ' && *b <= b'~' {
                let c = char::from(*b);
                write!(f, "{c}")?;
            }
        }
        Ok(())
    }
}
