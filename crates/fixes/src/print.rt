// Messages in print.
use fix::{CheckedFix, Refusal};
use messages::{Gga, Gll, Rmc, Sentence, Zda, write_message, write_time_utc};
use prints::{Hex, Text};
use settings::Systems;
use std::io;
use std::ops::Range;

fn print_failure(rt: &HostRuntime, refusal: wire::Refusal) -> io::Result<()> {
    let number = refusal.number();
    println!(rt; "  refused {number}: a message was not written")
}

fn print_sentence<S: Sentence>(
    rt: &HostRuntime,
    fix: &CheckedFix,
    systems: Systems,
) -> io::Result<()> {
    let mut out = [0u8; 82];
    match write_message::<S>(fix, systems, &mut out) {
        Ok(n) => {
            let text = Text(&out[..n.min(out.len())]);
            println!(rt; "  {text}")
        }
        Err(refusal) => print_failure(rt, refusal),
    }
}

// The fields of NAV-TIMEUTC after the first three: name, and where in the frame.
const FIELDS: [(&str, Range<usize>); 10] = [
    ("ms", 18..20),
    ("year", 20..22),
    ("month", 22..23),
    ("day", 23..24),
    ("hour", 24..25),
    ("minute", 25..26),
    ("second", 26..27),
    ("valid", 27..28),
    ("source", 28..29),
    ("date", 29..30),
];

// A number, low byte first; of one, two or four bytes, where `from_le_bytes` takes one size.
fn number(bytes: &[u8]) -> u64 {
    bytes.iter().rev().fold(0, |n: u64, b| {
        n.wrapping_mul(256).wrapping_add(u64::from(*b))
    })
}

// NAV-TIMEUTC field by field.
fn print_fields(rt: &HostRuntime, frame: &[u8; 34]) -> io::Result<()> {
    let run_time = number(&frame[6..10]);
    let accuracy = Hex(&frame[10..14]);
    let error = Hex(&frame[14..18]);
    print!(rt; "    run time {run_time}, time accuracy{accuracy}, ms error{error}")?;
    for (name, place) in FIELDS {
        if let Some(bytes) = frame.get(place) {
            let value = number(bytes);
            print!(rt; ", {name} {value}")?;
        }
    }
    println!(rt; "")
}

fn print_time_utc(rt: &HostRuntime, fix: &CheckedFix, systems: Systems) -> io::Result<()> {
    let mut frame = [0u8; 34];
    match write_time_utc(fix, systems, &mut frame) {
        Ok(_) => {
            let hex = Hex(&frame);
            println!(rt; " {hex}")?;
            print_fields(rt, &frame)
        }
        Err(refusal) => print_failure(rt, refusal),
    }
}

pub fn print_refusal(rt: &HostRuntime, refusal: Refusal) -> io::Result<()> {
    let number = refusal.number();
    println!(rt; "  refused {number}: {refusal}")
}

// Fix and systems come apart, as for the writers that they go to.
pub fn print_messages(rt: &HostRuntime, fix: &CheckedFix, systems: Systems) -> io::Result<()> {
    print_sentence::<Gga>(rt, fix, systems)?;
    print_sentence::<Gll>(rt, fix, systems)?;
    print_sentence::<Rmc>(rt, fix, systems)?;
    print_sentence::<Zda>(rt, fix, systems)?;
    print_time_utc(rt, fix, systems)
}
