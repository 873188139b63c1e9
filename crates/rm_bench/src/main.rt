//! Works on a store in a file for the scripts in `bench/`, which tell what they want by its words: it makes one, appends to it, opens
//! it, and tells times and counts. With no word it prints the words.
//!
//! It promises nothing but to end; the numbers are the machine's. It stands on the store and what is below it.
#![tactic(auto)]

mod appends;
mod costs;
mod cycles;
mod jobs;
mod makes;
mod numbered;
mod opened;

use costs::Stop;
use opened::{Work, do_work};
use std::process::ExitCode;
use std::rt::Env;
use std::{env, io};

/// How the program is called.
const USAGE: &str = "append FILE JOBS
make FILE JOBS
open FILE
number FILE
count FILE
cycle FILE JOBS
pauses FILE JOBS CYCLES
last FILE JOBS";

/// The words of the command line, behind the program's name.
fn words_of<R: Env + AllocGlobal>(rt: &R) -> io::Result<Vec<String>> {
    let mut words = Vec::new(rt.alloc());
    for word in env::args(rt)?.skip(1) {
        words.push(word)?;
    }
    Ok(words)
}

/// The word at a place, or none.
fn word_at(words: &[String], place: usize) -> &str {
    match words.get(place) {
        Some(word) => word.as_str(),
        None => "",
    }
}

fn run_by(rt: HostRuntime, words: &[String]) -> Result<(), Stop> {
    let name = word_at(words, 1);
    let jobs = word_at(words, 2).parse().unwrap_or(1);
    let cycles = word_at(words, 3).parse().unwrap_or(1);
    match word_at(words, 0) {
        "append" => do_work(rt, name, Work::Append { jobs }),
        "open" => do_work(rt, name, Work::Open),
        "number" => do_work(rt, name, Work::Number),
        "count" => do_work(rt, name, Work::Count),
        "cycle" => do_work(rt, name, Work::Cycle { jobs }),
        "pauses" => do_work(rt, name, Work::Pauses { jobs, cycles }),
        "last" => do_work(rt, name, Work::Last { jobs }),
        "make" => makes::make(rt, name, jobs),
        "" => {
            println!(rt; "{USAGE}")?;
            Ok(())
        }
        _ => Err(Stop),
    }
}

fn run(rt: HostRuntime) -> Result<(), Stop> {
    let words = words_of(&rt)?;
    run_by(rt, &words)
}

fn main(rt: HostRuntime) -> ExitCode {
    match run(rt) {
        Ok(()) => ExitCode::SUCCESS,
        Err(Stop) => ExitCode::from(1),
    }
}
