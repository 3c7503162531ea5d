// Prints the sheet of a card that was sent what stands on standard input.
#![tactic(auto)]

use anyhow::anyhow;
use battery::Battery;
use card::{Card, Refusal};
use programs::filter;
use std::io::Read;
use std::process::ExitCode;
use std::str::from_utf8;

const HELP: &str = "usage: sheet < BYTES

Sends the bytes to a card whose memory holds no setting yet, lets the line pause,
and prints the card's sheet: the names of eight settings, and their values.

Example: printf '$PCAS02,500*1A\\r\\n' | sheet";

// The most bytes that a send takes, and the least room for a reply and for a sheet.
const PIECE: usize = 256;

const REPLY: usize = 2304;

const SHEET: usize = 96;

fn refused(refusal: Refusal) -> anyhow::Error {
    let number = refusal.number();
    anyhow!("the card refuses with {number}")
}

// Sends standard input to the card, as its bytes come, and lets the line pause.
fn send_all(rt: &HostRuntime, card: &mut Card<Battery>) -> anyhow::Result<()> {
    let mut piece = [0u8; PIECE];
    let mut reply = [0u8; REPLY];
    let mut input = rt.stdin();
    // A `for` where Rust has a `loop`: every function is proved to end, and standard input need not.
    for _ in 0..u64::MAX {
        let n = input.read(&mut piece)?;
        if n == 0 {
            break;
        }
        card.send(&piece[..n], &mut reply).map_err(refused)?;
    }
    card.pause(&mut reply).map_err(refused)?;
    Ok(())
}

fn print_sheet(rt: &HostRuntime) -> anyhow::Result<()> {
    let mut card = Card::build(Battery::new([0; 320]));
    send_all(rt, &mut card)?;
    let mut sheet = [0u8; SHEET];
    let n = card.sheet(&mut sheet).map_err(refused)?;
    let text = from_utf8(&sheet[..n.min(SHEET)])?;
    rt.print(text)?;
    Ok(())
}

fn main(rt: HostRuntime) -> ExitCode {
    filter(&rt, "sheet", HELP, "bytes come", print_sheet)
}
