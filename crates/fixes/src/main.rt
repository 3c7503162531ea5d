// Prints the messages of the fixes on standard input.
#![tactic(auto)]

mod print;
mod typed;

use fix::{Fix, check};
use print::{print_messages, print_refusal};
use programs::filter;
use settings::Systems;
use std::io;
use std::io::{BufRead, BufReader};
use std::process::ExitCode;
use std::str::from_utf8;
use typed::{Fault, read_fix};

const HELP: &str = "usage: fixes < FIXES

Prints the five messages that go out at each fix: GGA, GLL, RMC and ZDA as text,
NAV-TIMEUTC in hex and field by field; or why the fix is refused.

A fix is one line of seven words, or of thirteen if it has a position:
  date           year-month-day
  time           hour:minute:second.ms, ms in three digits (more only without a leading zero)
  systems        1 to 7: the sum of 1 for GPS, 2 for BeiDou and 4 for GLONASS
  run time       in ms
  time accuracy  eight hex digits, in the order in which they are sent
  ms error       likewise
  satellites     how many
  latitude       in ten-thousandths of a minute, north above zero
  longitude      likewise, east above zero
  altitude       in cm
  speed          in thousandths of a knot
  course         in thousandths of a degree
  HDOP           in hundredths
Empty lines and lines that begin with # are passed over.

Example: 2011-07-02 23:53:16.000 1 0 00000000 00000000 6 -17999925 72000090 6277 9 75020 121";

fn print_fault(rt: &HostRuntime, place: u64, fault: Fault) -> io::Result<()> {
    eprintln!(rt; "line {place}: no fix: {fault}")
}

// The messages of a fix, or its refusal.
fn print_fix(rt: &HostRuntime, fix: &Fix, systems: Systems) -> io::Result<()> {
    match check(fix) {
        Ok(checked) => print_messages(rt, &checked, systems),
        Err(refusal) => print_refusal(rt, refusal),
    }
}

// What a line comes to.
fn print_line(rt: &HostRuntime, place: u64, line: &str) -> io::Result<()> {
    match read_fix(line) {
        Ok((fix, systems)) => {
            println!(rt; "{line}")?;
            print_fix(rt, &fix, systems)
        }
        Err(fault) => print_fault(rt, place, fault),
    }
}

// A line with no word, or that begins with #, is passed over.
fn print_text(rt: &HostRuntime, place: u64, text: &str) -> io::Result<()> {
    if text.is_empty() || text.starts_with('#') {
        return Ok(());
    }
    print_line(rt, place, text)
}

fn print_input(rt: &HostRuntime) -> anyhow::Result<()> {
    let lines = BufReader::new(rt.alloc(), rt.stdin())?.split(rt.alloc(), b'\n');
    for (place, line) in (1..=u64::MAX).zip(lines) {
        let line = line?;
        match from_utf8(line.as_slice()) {
            Ok(text) => print_text(rt, place, text.trim())?,
            Err(_) => print_fault(rt, place, Fault::NoText)?,
        }
    }
    Ok(())
}

fn main(rt: HostRuntime) -> ExitCode {
    filter(&rt, "fixes", HELP, "fixes come", print_input)
}
