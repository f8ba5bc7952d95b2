//! `stair_scenes FILE..`: plays the scenes of text files over arrays in memory, and prints how many of each file passed.
#![tactic(auto)]

mod called;
mod fault;
mod lines;
mod numbers;
mod parts;
mod play;
mod reading;
mod stage;

use fault::Fault;
use lines::read_scenes;
use play::play;
use std::alloc::AllocError;
use std::process::ExitCode;
use std::{env, fs, io};

// Why the files weren't played to their end.
enum Stop {
    Usage,
    Input(String),
    Output,
    OutOfMemory,
}

impl From<AllocError> for Stop {
    fn from(_: AllocError) -> Stop {
        Stop::OutOfMemory
    }
}

// Plays the scenes of a file, and prints how many passed. Returns whether all did.
fn play_file(rt: &HostRuntime, name: &str) -> Result<bool, Stop> {
    let alloc = rt.alloc();
    let text = match fs::read_to_string(rt, name) {
        Ok(text) => text,
        Err(_) => return Err(Stop::Input(String::from_str(alloc, name)?)),
    };
    let mut passed = 0u32;
    let mut are_right = true;
    for scene in read_scenes(alloc, text.as_str())? {
        let title = scene.title.clone()?;
        match play(alloc, scene) {
            Ok(()) => passed = passed.saturating_add(1),
            Err((line, Fault::Said(what))) => {
                are_right = false;
                eprintln!(rt; "{name}: {title}: line {line}: {what}").map_err(|_| Stop::Output)?;
            }
            Err((_, Fault::OutOfMemory)) => return Err(Stop::OutOfMemory),
        }
    }
    println!(rt; "{name}: {passed} scenes").map_err(|_| Stop::Output)?;
    Ok(are_right && passed > 0)
}

fn run(rt: &HostRuntime) -> Result<bool, Stop> {
    let mut words = match env::args(rt) {
        Ok(words) => words,
        Err(error) if error.kind() == io::ErrorKind::OutOfMemory => return Err(Stop::OutOfMemory),
        Err(_) => return Err(Stop::Usage),
    };
    let _program = words.next();
    let names: Vec<String> = words.collect(rt.alloc())?;
    if names.is_empty() {
        return Err(Stop::Usage);
    }
    let mut are_right = true;
    for name in &names {
        are_right &= play_file(rt, name.as_str())?;
    }
    Ok(are_right)
}

fn main(rt: HostRuntime) -> ExitCode {
    // if standard error can't be written, the exit status still has the cause
    let (code, said) = match run(&rt) {
        Ok(true) => return ExitCode::SUCCESS,
        Ok(false) => return ExitCode::from(1),
        Err(Stop::Usage) => (2, eprintln!(rt; "usage: stair_scenes FILE..")),
        Err(Stop::Input(name)) => (5, eprintln!(rt; "{name}: can't be read")),
        Err(Stop::Output) => (6, Ok(())),
        Err(Stop::OutOfMemory) => (17, eprintln!(rt; "out of memory")),
    };
    let _ = said;
    ExitCode::from(code)
}
