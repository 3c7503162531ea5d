// Lists the frames and sentences in a capture of the line, from standard input.
#![tactic(auto)]

ghost use Rattle.std.specs.Prelude.{◌≡◌, ◌≤◌, ◌++◌, length, take, drop, IfOk};
ghost use Rattle.listen.specs.Listing.{Lists, Takes};

use arrayvec::ArrayVec;
use names::message_name;
use prints::{Hex, Text};
use programs::filter;
use std::io;
use std::io::Read;
use std::process::ExitCode;
use wire::{Ending, Found, Frame, Item, Place, read_next};

const HELP: &str = "usage: listen < CAPTURE

Lists the frames and sentences in a capture of the line, each on a line of its own,
with the place of its first byte, counted from 0. At the end stand an unfinished
frame or sentence, if there is one, what is found in it if the line falls silent,
and how many bytes were stray.";

// How many bytes are read at once.
const PIECE: usize = 65536;

// The most bytes that reading leaves unread.
const UNREAD: usize = 81;

// Room for a piece behind as many bytes.
const ROOM: usize = UNREAD + PIECE;

// Where the unread rest of some bytes begins, and how many bytes the frames and sentences before it have.
#[derive(Clone, Copy)]
struct Listed {
    rest: usize,
    good: usize,
}

fn print_frame(rt: &HostRuntime, place: u64, frame: Frame) -> io::Result<()> {
    let Frame { class, id, payload } = frame;
    let name = message_name(class, id).unwrap_or("-");
    let len = payload.len();
    let bytes = Hex(payload);
    println!(rt; "{place:>8}  frame     {class:02X} {id:02X}  {name:<11} {len:>2}{bytes}")
}

fn print_item(rt: &HostRuntime, place: u64, item: Item) -> io::Result<()> {
    match item {
        Item::Frame(frame) => print_frame(rt, place, frame),
        Item::Sentence(body) => {
            let text = Text(body);
            println!(rt; "{place:>8}  sentence  {text}")
        }
    }
}

// Prints what is found in some bytes of which the first stands at the place `start` of the capture.
fn list(rt: &HostRuntime, bytes: &[u8], ending: Ending, start: u64) -> io::Result<Listed>
    ensures { IfOk result (Lists ending bytes.now) }
{
    let mut place = Place { at: 0 };
    let mut good = 0;
    loop {
        match read_next(bytes, ending, &mut place) {
            Found::Good(at, item) => {
                good += place.at - at;
                print_item(rt, start.saturating_add(at as u64), item)?;
            }
            Found::Unfinished(at) => return Ok(Listed { rest: at, good }),
            Found::End => {
                let rest = bytes.len();
                return Ok(Listed { rest, good });
            }
        }
    }
}

// How far a capture is listed: the place of the first unread byte, and how many bytes before it were good.
#[derive(Clone, Copy)]
struct Held {
    start: u64,
    good: u64,
}

// The unread bytes and `n` bytes of a piece behind them. The piece stands at its place in the room, and they are
// copied in front of it: they are few, and a piece that was copied behind them would be written over again.
fn joined<'a>(unread: &[u8], room: &'a mut [u8; ROOM], n: usize) -> &'a [u8]
    requires { (length unread.now ≤ 81) × (n ≤ 65536) }
    ensures { result.now ≡ unread.now ++ take n (drop 81 room.old) }
{
    let start = UNREAD - unread.len();
    room[start..UNREAD].copy_from_slice(unread);
    &room[start..UNREAD + n]
}

// Lists `n` bytes of a piece behind the unread bytes, which are then those that it leaves unread.
// They are no part of `Held`: it is handed out, and a vector in it would be copied on its way.
fn take_in(
    rt: &HostRuntime,
    unread: &mut ArrayVec<u8, UNREAD>,
    room: &mut [u8; ROOM],
    n: usize,
    held: Held,
) -> io::Result<Held>
    requires { n ≤ 65536 }
    ensures { IfOk result (Takes unread.old.items (take n (drop 81 room.old)) unread.new.items held) }
{
    let whole = joined(unread.as_slice(), room, n);
    let Listed { rest, good } = list(rt, whole, Ending::More, held.start)?;
    unread.clear();
    let _ = unread.try_extend_from_slice(&whole[rest..]);
    Ok(Held {
        start: held.start.saturating_add(rest as u64),
        good: held.good.saturating_add(good as u64),
    })
}

// Lists standard input to its end, as its bytes come; what is left unread stays in `unread`.
fn take_all(rt: &HostRuntime, unread: &mut ArrayVec<u8, UNREAD>) -> io::Result<Held> {
    let mut held = Held { start: 0, good: 0 };
    let mut room = [0u8; ROOM];
    let mut input = rt.stdin();
    // A `for` where Rust has a `loop`: every function is proved to end, and standard input need not.
    for _ in 0..u64::MAX {
        let n = input.read(&mut room[UNREAD..])?;
        if n == 0 {
            break;
        }
        held = take_in(rt, unread, &mut room, n, held)?;
    }
    Ok(held)
}

// Prints the unfinished try, what a pause finds in it, and how many bytes were stray.
fn finish(rt: &HostRuntime, unread: &[u8], held: Held) -> io::Result<()> {
    let start = held.start;
    if let [lead, ..] = unread {
        let kind = if *lead == b'$' { "sentence" } else { "frame" };
        let len = unread.len();
        println!(rt; "{start:>8}  unfinished {kind} of {len} bytes; after a pause:")?;
    }
    let last = list(rt, unread, Ending::Pause, start)?;
    let all = start.saturating_add(unread.len() as u64);
    let good = held.good.saturating_add(last.good as u64);
    let stray = all.saturating_sub(good);
    println!(rt; "stray bytes: {stray}")
}

fn list_input(rt: &HostRuntime) -> anyhow::Result<()> {
    let mut unread = ArrayVec::new();
    let held = take_all(rt, &mut unread)?;
    finish(rt, unread.as_slice(), held)?;
    Ok(())
}

fn main(rt: HostRuntime) -> ExitCode {
    filter(&rt, "listen", HELP, "capture comes", list_input)
}
