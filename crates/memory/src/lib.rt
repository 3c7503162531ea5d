// The settings memory: what every make of it answers and leaves.
#![tactic(auto)]

ghost use Rattle.std.specs.Prelude.{◌≡◌, ◌<◌, ◌≤◌, not, length, MatchResult};
ghost use Rattle.memory.specs.declared.Refusal.TheVariants.{StringTooLong};
ghost use Rattle.memory.specs.Memory.{Meaning, Limits, known, number, refusal, refuse, keep_answer, keep_after, erase_answer, erase_after, read_answer, read_out, string_answer, lent};

// Why a memory refuses a call; a refused call changes nothing.
#[derive(Clone, Copy, PartialEq, Eq, Debug)]
pub enum Refusal {
    UnknownSection = 7,
    StringTooLong = 8,
    NoWritesLeft = 9,
    BufferTooShort = 10,
}

impl Refusal {
    // The number under which the refusal is known on the bench.
    // A From for u8 would not say which number is meant, and a trait would have this body for each enum: neither is plainer.
    pub fn number(self) -> u8
        ensures number { result ≡ number self }
        ensures back { refusal result ≡ self }
    {
        self as u8
    }
}

// The longest string that a section may hold.
pub const LONGEST: usize = 56;

// Whether a section number is one of the five.
pub fn is_known(section: u8) -> bool
    ensures { result ≡ known section }
{
    matches!(section, 0 | 1 | 3..=5)
}

// Refuses a number that is no section's.
pub fn check_section(section: u8) -> Result<(), Refusal>
    ensures { result ≡ refuse (not (known section)) Refusal.UnknownSection (Ok tt) }
{
    if !is_known(section) {
        return Err(Refusal::UnknownSection);
    }
    Ok(())
}

// A string that a section may hold.
#[derive(Clone, Copy, Drop)]
pub struct ShortString<'a> {
    pub bytes: &'a [u8],
    ghost short: { length bytes.now ≤ 56 },
}

impl<'a> TryFrom<&'a [u8]> for ShortString<'a> {
    type Error = Refusal;

    // The same bytes, or the refusal of a string that is too long.
    ghost try_from_gives = { λ bytes r. MatchResult r (λ s. s.bytes.now ≡ bytes.now) (λ e. (e ≡ StringTooLong) × (56 < length bytes.now)) };

    fn try_from(bytes: &'a [u8]) -> Result<ShortString<'a>, Refusal> {
        if bytes.len() > LONGEST {
            return Err(Refusal::StringTooLong);
        }
        Ok(ShortString { bytes })
    }
}

// A memory that keeps one string, or none, for each of the five sections.
// It takes any number for a section, and refuses those that are none's: an enum would ask more of its callers.
pub trait SettingsMemory {
    ghost meaning: { Self → Meaning };

    fn keep(&mut self, section: u8, bytes: &[u8]) -> Result<(), Refusal>
        ensures answer { result ≡ keep_answer (meaning self.old) section bytes.now }
        ensures after { meaning self.new ≡ keep_after (meaning self.old) section bytes.now };

    fn erase(&mut self, section: u8) -> Result<(), Refusal>
        ensures answer { result ≡ erase_answer (meaning self.old) section }
        ensures after { meaning self.new ≡ erase_after (meaning self.old) section };

    // The length of the string, which then stands at the front of the caller's buffer `out`, or none.
    fn read(&self, section: u8, out: &mut [u8]) -> Result<Option<usize>, Refusal>
        ensures answer { result ≡ read_answer (meaning self.now) section (length out.old) }
        ensures copied { out.new ≡ read_out (meaning self.now) section out.old };

    fn left(&self) -> usize
        ensures { result ≡ (meaning self.now).left };

    fn price(&self) -> usize
        ensures { result ≡ (meaning self.now).price };

    // Laws of every make: its limits, and one price for the make.
    ghost limits: { (x : Self) → Limits (meaning x) };

    ghost fixed: { (x y : Self) → (meaning x).price ≡ (meaning y).price };
}

// The string of a section, read through a buffer with room for every string.
pub fn kept_string<'a, M: SettingsMemory>(
    memory: &M,
    section: u8,
    buffer: &'a mut [u8; LONGEST],
) -> Result<Option<&'a [u8]>, Refusal>
    ensures { lent result ≡ string_answer (M.meaning memory.now) section }
{
    let Some(n) = memory.read(section, buffer)? else {
        return Ok(None);
    };
    Ok(Some(&buffer[0..n]))
}
