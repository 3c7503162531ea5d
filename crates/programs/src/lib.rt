// How a program starts and ends.
#![tactic(auto)]

ghost use Rattle.std.specs.Prelude.{◌≡◌, ◌≤◌, if◌then◌else◌, is_ok};
ghost use Rattle.std.specs.Process.{exit_status};

use anyhow::anyhow;
use std::process::ExitCode;
use std::{env, fmt};

// The status of a program that has come to its end: an error is one line on standard error, and status 1.
pub fn ended<E: fmt::Display + Drop>(
    rt: &HostRuntime,
    name: &str,
    outcome: Result<(), E>,
) -> ExitCode
    ensures { exit_status result ≡ (if is_ok outcome then 0 else 1) }
{
    match outcome {
        Ok(()) => ExitCode::SUCCESS,
        Err(error) => {
            let _ = eprintln!(rt; "{name}: {error}");
            ExitCode::FAILURE
        }
    }
}

// What a program does that reads standard input and takes no argument but `--help`.
fn filtered<F: FnOnce(&HostRuntime) -> anyhow::Result<()>>(
    rt: &HostRuntime,
    help: &str,
    input: &str,
    job: F,
) -> anyhow::Result<()>
    requires { F.pre job rt }
{
    let mut args = env::args(rt)?;
    let _name = args.next();
    let Some(word) = args.next() else {
        return job(rt);
    };
    if word.as_str() != "--help" {
        return Err(anyhow!("no argument but --help is taken; the {input} on standard input"));
    }
    rt.println(help)?;
    Ok(())
}

// Such a program from start to end; its status is 0 or 1, and no clause knows more, since none knows the arguments.
pub fn filter<F: FnOnce(&HostRuntime) -> anyhow::Result<()>>(
    rt: &HostRuntime,
    name: &str,
    help: &str,
    input: &str,
    job: F,
) -> ExitCode
    requires { F.pre job rt }
    ensures { exit_status result ≤ 1 }
{
    ended(rt, name, filtered(rt, help, input, job))
}
