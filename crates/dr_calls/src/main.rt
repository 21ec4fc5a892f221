//! Runs calls of the libraries over the cases of files, and prints those that answer in another way than they say:
//! calls that no command shows.
#![tactic(auto)]

mod calls;
mod cuts;
mod faults;
mod hybrids;
mod leaves;
mod lines;
mod made;
mod numbers;
mod pages;
mod pieces;
mod records;
mod runs;
mod session;
mod streams;
mod structs;
mod texts;
mod triplets;
mod values;
mod walks;

use dr_case_lines::{Broken, Place, Tally};
use session::Session;
use std::alloc::Global;
use std::process::ExitCode;
use std::{env, fs, io};

/// Runs the cases of a file.
fn run_file(alloc: Global, file: &str, text: &str, tally: &mut Tally) -> Result<(), Broken> {
    let mut session = Session::new(alloc);
    let mut place = Place { file, line: 0 };
    for line in text.lines() {
        place.line = place.line.saturating_add(1);
        let taken = if line.is_empty() {
            session.end(place, tally)
        } else {
            session.take_line(line)
        };
        if taken.is_err() {
            tally.fail(place, line)?;
        }
    }
    session.end(place, tally)
}

fn main(rt: HostRuntime) -> io::Result<ExitCode> {
    let alloc = rt.alloc();
    let names: Vec<String> = env::args(&rt)?.collect(alloc)?;
    let mut tally = Tally::new(alloc);
    let mut is_broken = false;
    for name in names.iter().skip(1) {
        let text = fs::read_to_string(&rt, name.as_str())?;
        is_broken = is_broken || run_file(alloc, name.as_str(), text.as_str(), &mut tally).is_err();
    }
    match tally.text() {
        Ok(text) if !is_broken => {
            print!(rt; "{}", text.as_str())?;
            Ok(ExitCode::from(0))
        }
        _ => Ok(ExitCode::from(1)),
    }
}
