//! `stair_fault_tables [whole]`: tries the array of four devices by tables of stops, damage, returns, superblocks and gates that are changed,
//! racks that aren't honest, and input and output that fail.
#![tactic(auto)]

mod command;
mod contents;
mod damage;
mod gates;
mod racks;
mod returns;
mod script;
mod stops;
mod streams;
mod superblocks;
mod tally;
mod wild;

use std::process::ExitCode;
use std::{env, io};
use stops::Work;
use tally::{Extent, Fault, Part};

/// Reads the arguments after the program's name. Arguments that are not UTF-8 text are a faulty command line.
fn read_extent(rt: &HostRuntime) -> Result<Extent, Fault> {
    let mut words = match env::args(rt) {
        Ok(words) => words,
        Err(error) if error.kind() == io::ErrorKind::OutOfMemory => return Err(Fault::OutOfMemory),
        Err(_) => return Err(Fault::Usage),
    };
    let _program = words.next();
    let words: Vec<String> = words.collect(rt.alloc())?;
    match words.as_slice() {
        [] => Ok(Extent::Some),
        [word] if word.as_str() == "whole" => Ok(Extent::Whole),
        _ => Err(Fault::Usage),
    }
}

/// Prints the result of a part of a table: its number of calls or of cases, and how many cases were wrong. If the whole table was
/// tried, it also prints how many cases there were at these calls. Returns whether all were right.
fn print_part(rt: &HostRuntime, extent: Extent, part: Part) -> Result<bool, Fault> {
    match extent {
        Extent::Whole if part.goes_over_calls() => println!(rt; "{part}, {} cases", part.cases()),
        _ => println!(rt; "{part}"),
    }
    .map_err(|_| Fault::Output)?;
    Ok(part.is_right())
}

fn run(rt: &HostRuntime) -> Result<(), Fault> {
    let extent = read_extent(rt)?;
    let alloc = rt.alloc();
    let mut are_right = true;
    for work in Work::EACH {
        are_right &= print_part(rt, extent, stops::stops(alloc, work)?)?;
    }
    are_right &= print_part(rt, extent, damage::damage(alloc)?)?;
    are_right &= print_part(rt, extent, returns::returns(alloc, extent)?)?;
    are_right &= print_part(rt, extent, superblocks::unreadable(alloc)?)?;
    are_right &= print_part(rt, extent, superblocks::changed(alloc, extent)?)?;
    are_right &= print_part(rt, extent, gates::unreadable(alloc)?)?;
    are_right &= print_part(rt, extent, gates::changed(alloc, extent)?)?;
    are_right &= print_part(rt, extent, wild::wild_racks(alloc)?)?;
    are_right &= print_part(rt, extent, streams::streams(alloc)?)?;
    if are_right { Ok(()) } else { Err(Fault::Wrong) }
}

fn main(rt: HostRuntime) -> ExitCode {
    match run(&rt) {
        Ok(()) => ExitCode::SUCCESS,
        Err(fault) => {
            // If standard error can't be written, the exit status still has the cause.
            let _ = eprintln!(rt; "{fault}");
            ExitCode::from(fault.code())
        }
    }
}
