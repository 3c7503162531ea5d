// Fields, each behind a comma.
ghost use Rattle.std.specs.Prelude.{◌≡◌, ◌+◌, ◌<◌, ◌≤◌, max, [], ◌∷◌, ◌++◌, length, pos, negsuc, ◌≤ℤ◌, decimal};
ghost use Rattle.texts.specs.Decimals.{padded};
ghost use Rattle.bodies.specs.Decimals.{pointed};
ghost use Rattle.bodies.specs.Fields.{time_text, date_text, angle_text, side_text, metres_text};
ghost use Rattle.bodies.specs.Bodies.{body_of, latitude_text, north_or_south, longitude_text, east_or_west};
ghost use Rattle.messages.specs.Lines.{written};

use crate::line::Line;
use fix::{CheckedDate, CheckedPosition, CheckedTime};

// One text from zero on, another below.
fn side<'a>(z: i32, plus: &'a [u8], minus: &'a [u8]) -> &'a [u8]
    ensures text { result.now ≡ side_text plus.now minus.now z }
    ensures len { length result.now ≤ max (length plus.now) (length minus.now) }
{
    if z < 0 { minus } else { plus }
}

// Each field says the room that it needs, since a line that was cut would make no good sentence.
impl Line {
    // What is written so far.
    pub(crate) fn as_bytes(&self) -> &[u8]
        ensures text { result.now ≡ written self.now }
        ensures fits { length result.now ≤ 76 }
    {
        self.text.as_bytes()
    }

    pub(crate) fn field(&mut self, text: &[u8])
        requires { length (written self.old) + length text.now < 76 }
        ensures text { written self.new ≡ written self.old ++ (44 ∷ text.now) }
        ensures len { length (written self.new) ≡ length (written self.old) + 1 + length text.now }
    {
        self.text.push(b',');
        self.text.append(text);
    }

    pub(crate) fn number(&mut self, width: usize, n: u32)
        requires { length (written self.old) + width < 76 }
        ensures text { written self.new ≡ written self.old ++ (44 ∷ padded width n) }
        ensures len { length (written self.new) ≡ length (written self.old) + 1 + width }
    {
        self.text.push(b',');
        self.text.padded(width, n);
    }

    pub(crate) fn time(&mut self, t: &CheckedTime)
        requires { length (written self.old) + 11 ≤ 76 }
        ensures text { written self.new ≡ written self.old ++ (44 ∷ time_text t.now) }
        ensures len { length (written self.new) ≡ length (written self.old) + 11 }
    {
        self.text.push(b',');
        self.text.padded(2, u32::from(t.hour));
        self.text.padded(2, u32::from(t.minute));
        self.text.padded(2, u32::from(t.second));
        self.text.push(b'.');
        self.text.padded(3, u32::from(t.ms));
    }

    pub(crate) fn date(&mut self, d: &CheckedDate)
        requires { length (written self.old) + 7 ≤ 76 }
        ensures text { written self.new ≡ written self.old ++ (44 ∷ date_text d.now) }
        ensures len { length (written self.new) ≡ length (written self.old) + 7 }
    {
        self.text.push(b',');
        self.text.padded(2, u32::from(d.day));
        self.text.padded(2, u32::from(d.month));
        self.text.padded(2, u32::from(d.year) % 100);
    }

    // Degrees in so many digits, and minutes.
    pub(crate) fn angle(&mut self, width: usize, z: i32)
        requires { length (written self.old) + width + 8 ≤ 76 }
        ensures text { written self.new ≡ written self.old ++ (44 ∷ angle_text width z) }
        ensures len { length (written self.new) ≡ length (written self.old) + width + 8 }
    {
        let n = z.unsigned_abs();
        self.text.push(b',');
        self.text.padded(width, n / 600_000);
        self.text.padded(2, n / 10_000 % 60);
        self.text.push(b'.');
        self.text.padded(4, n % 10_000);
    }

    // A whole part, a point and so many decimals.
    fn pointed(&mut self, whole: u32, places: usize, rest: u32)
        requires { length (written self.old) + length (decimal whole) + places < 76 }
        ensures text { written self.new ≡ written self.old ++ (decimal whole ++ (46 ∷ padded places rest)) }
        ensures len { length (written self.new) ≡ length (written self.old) + length (decimal whole) + 1 + places }
    {
        self.text.decimal(whole);
        self.text.push(b'.');
        self.text.padded(places, rest);
    }

    // Hundredths and thousandths stay two: each is one call of `pointed`, and its name says the unit.
    pub(crate) fn hundredths(&mut self, n: u32)
        requires { (length (written self.old) + 9 ≤ 76) × (n ≤ 9999999) }
        ensures text { written self.new ≡ written self.old ++ (44 ∷ pointed 2 n) }
        ensures len { length (written self.new) ≤ length (written self.old) + 9 }
    {
        self.text.push(b',');
        self.pointed(n / 100, 2, n % 100);
    }

    pub(crate) fn thousandths(&mut self, n: u32)
        requires { (length (written self.old) + 9 ≤ 76) × (n ≤ 9999999) }
        ensures text { written self.new ≡ written self.old ++ (44 ∷ pointed 3 n) }
        ensures len { length (written self.new) ≤ length (written self.old) + 9 }
    {
        self.text.push(b',');
        self.pointed(n / 1_000, 3, n % 1_000);
    }

    // An altitude in cm, told in metres.
    pub(crate) fn metres(&mut self, z: i32)
        requires { (length (written self.old) + 10 ≤ 76) × ((negsuc 9999998 ≤ℤ z) × (z ≤ℤ pos 9999999)) }
        ensures text { written self.new ≡ written self.old ++ (44 ∷ metres_text z) }
        ensures len { length (written self.new) ≤ length (written self.old) + 10 }
    {
        let n = z.unsigned_abs();
        self.text.push(b',');
        self.text.append(side(z, b"", b"-"));
        self.pointed(n / 100, 2, n % 100);
    }

    // Latitude, N or S, longitude, E or W.
    pub(crate) fn place(&mut self, p: &CheckedPosition)
        requires { length (written self.old) + 25 ≤ 76 }
        ensures text { written self.new ≡ body_of (written self.old) (latitude_text p.now ∷ north_or_south p.now ∷ longitude_text p.now ∷ east_or_west p.now ∷ []) }
        ensures len { length (written self.new) ≤ length (written self.old) + 25 }
    {
        self.angle(2, p.latitude);
        self.field(side(p.latitude, b"N", b"S"));
        self.angle(3, p.longitude);
        self.field(side(p.longitude, b"E", b"W"));
    }

    // The four fields of a place that is not known, each by a call: a loop would need an invariant, and be no shorter.
    pub(crate) fn no_place(&mut self)
        requires { length (written self.old) + 4 ≤ 76 }
        ensures text { written self.new ≡ body_of (written self.old) ([] ∷ [] ∷ [] ∷ [] ∷ []) }
        ensures len { length (written self.new) ≡ length (written self.old) + 4 }
    {
        self.field(b"");
        self.field(b"");
        self.field(b"");
        self.field(b"");
    }
}
