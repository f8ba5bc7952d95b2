//! `stair_bench [KERNEL ROUNDS]`: runs a kernel so many times, or one small round of each, and prints a check of the result.
#![tactic(auto)]

mod arrays;
mod check;
mod counting;
mod encoding;
mod fault;
mod kernel;
mod layout;
mod many;
mod redo;
mod restoring;
mod rounds;
mod sectors;
mod varied;
mod writes;

use counting::Calls;
use fault::Fault;
use kernel::{IN_MEMORY, Kernel};
use rounds::{Made, make_rounds};
use std::process::ExitCode;
use std::{env, io};

/// What the arguments ask for.
#[derive(Clone, Copy)]
enum Request {
    OneRoundOfEach,
    Rounds { kernel: Kernel, rounds: u32 },
}

/// Reads the arguments after the program's name. An argument that is not UTF-8 text is a faulty command line.
fn read_request(rt: &HostRuntime) -> Result<Request, Fault> {
    let words = words_given(rt)?;
    request_of(&words)
}

fn words_given(rt: &HostRuntime) -> Result<Vec<String>, Fault> {
    match env::args(rt) {
        Ok(words) => Ok(words.skip(1).collect(rt.alloc())?),
        Err(error) if error.kind() == io::ErrorKind::OutOfMemory => Err(Fault::OutOfMemory),
        Err(_) => Err(Fault::Usage),
    }
}

/// Returns what these arguments ask for.
fn request_of(words: &[String]) -> Result<Request, Fault> {
    match words {
        [] => Ok(Request::OneRoundOfEach),
        [name, count] => rounds_of(name.as_str(), count.as_str()),
        _ => Err(Fault::Usage),
    }
}

/// So many rounds of the kernel of this name.
fn rounds_of(name: &str, count: &str) -> Result<Request, Fault> {
    let kernel = Kernel::named(name).ok_or(Fault::Usage)?;
    let rounds = count.parse().map_err(|_| Fault::Usage)?;
    Ok(Request::Rounds { kernel, rounds })
}

/// Runs the rounds of a kernel, and prints its name, the check of its result, and the calls of redos.
fn print_made(rt: &HostRuntime, kernel: Kernel, rounds: u32) -> Result<(), Fault> {
    let printed = match make_rounds(rt, rt.alloc(), kernel, rounds)? {
        Made::Check(check) => print_check(rt, kernel, check),
        Made::Redone(check, calls) => print_calls(rt, kernel, check, calls),
    };
    printed.map_err(|_| Fault::Output)
}

fn print_check(rt: &HostRuntime, kernel: Kernel, check: u64) -> io::Result<()> {
    println!(rt; "{kernel} {check:016x}")
}

fn print_calls(rt: &HostRuntime, kernel: Kernel, check: u64, calls: Calls) -> io::Result<()> {
    println!(rt; "{kernel} {check:016x} {calls}")
}

fn run(rt: &HostRuntime) -> Result<(), Fault> {
    match read_request(rt)? {
        Request::OneRoundOfEach => {
            for kernel in &IN_MEMORY {
                print_made(rt, *kernel, 1)?;
            }
            Ok(())
        }
        Request::Rounds { kernel, rounds } => print_made(rt, kernel, rounds),
    }
}

fn main(rt: HostRuntime) -> ExitCode {
    match run(&rt) {
        Ok(()) => ExitCode::SUCCESS,
        Err(fault) => {
            // If standard error can't be written, the exit status still has the cause.
            let _ = eprintln!(rt; "{fault}");
            ExitCode::from(fault.code())
        }
    }
}
