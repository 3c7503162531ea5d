// Prints what a dumped image of a settings memory holds, section by section.
#![tactic(auto)]

ghost use Rattle.std.specs.Prelude.{◌≡◌, ◌≢◌, length, MatchResult};

mod asked;
mod problem;

use asked::Make;
use battery::Battery;
use journal::Journal;
use listing::listing;
use memory::SettingsMemory;
use problem::Problem;
use programs::ended;
use std::alloc::Global;
use std::io::Read;
use std::process::ExitCode;
use std::{env, fs};

const HELP: &str = "usage: kept battery [FILE]
       kept journal [FILE]

Prints what each section of a dumped settings memory holds, the writes left and
the price of a write. The image is read from FILE, or from standard input.
A battery image has 320 bytes; a journal has any number.";

// The image of a battery memory, where the bytes are as many as it has.
fn battery_image(bytes: &[u8]) -> Result<[u8; 320], Problem>
    ensures { MatchResult result (λ image. image ≡ bytes.now) (λ problem. (problem ≡ Problem.BatterySize (length bytes.now)) × (length bytes.now ≢ 320)) }
{
    bytes
        .try_into()
        .map_err(|_| Problem::BatterySize(bytes.len()))
}

// The lines for an image of a make; a match, since the two makes are types of their own.
fn shown(heap: Global, make: Make, bytes: &mut [u8]) -> Result<String, Problem> {
    match make {
        Make::Battery => Ok(listing(heap, &Battery::new(battery_image(bytes)?))?),
        Make::Journal => Ok(listing(heap, &Journal::new(bytes))?),
    }
}

fn run(rt: &HostRuntime) -> Result<(), Problem> {
    let mut args = env::args(rt)?;
    let _program = args.next();
    let word = args.next().ok_or(Problem::Usage)?;
    if word.as_str() == "--help" {
        rt.println(HELP)?;
        return Ok(());
    }
    let make: Make = word.as_str().parse()?;
    let file = args.next();
    if args.next().is_some() {
        return Err(Problem::Usage);
    }
    let mut bytes = match file {
        Some(path) => fs::read(rt, path.as_str())?,
        None => {
            let mut all = Vec::new(rt.alloc());
            rt.stdin().read_to_end(&mut all)?;
            all
        }
    };
    let text = shown(rt.alloc(), make, bytes.as_mut_slice())?;
    rt.print(text)?;
    Ok(())
}

fn main(rt: HostRuntime) -> ExitCode {
    ended(&rt, "kept", run(&rt))
}
