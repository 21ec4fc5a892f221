//! The program: the real files and streams, and `run` over them.
#![tactic(auto)]

ghost use Rattle.std.specs.Prelude.{◌≡◌, length, IfOk};

use dr_files::{DirKeeper, DirLink, Incoming, Outgoing};
use dr_outside::write_all;
use dr_top::run;
use std::alloc::{AllocError, Global};
use std::fs::File;
use std::io::ErrorKind;
use std::os::fd::AsRawFd;
use std::process::ExitCode;
use std::{env, fs};

/// The number of links: each of at most so many workers reads by one of its own.
const LINKS: usize = 16;

/// The device that holds nothing.
const NOTHING: &str = "/dev/null";

/// The descriptors of the standard streams are those up to this one.
const LAST_STANDARD: i32 = 2;

/// The status of a run for which memory was wanting.
const NO_MEMORY: u8 = 5;

/// The words of the command line; none where one of them isn't UTF-8, since no words ask for nothing.
fn words_of(rt: &HostRuntime, alloc: Global) -> Result<Vec<String>, AllocError> {
    match env::args(rt) {
        Ok(words) => words.collect(alloc),
        Err(error) if error.kind() == ErrorKind::InvalidData => Ok(Vec::new(alloc)),
        Err(_) => Err(AllocError),
    }
}

/// The device that holds nothing in the place of a standard stream that is closed, if one is. The lowest free
/// descriptor is taken first.
fn stand_in(rt: &HostRuntime) -> Option<File> {
    match fs::open(rt, NOTHING) {
        Ok(file) if file.as_raw_fd() <= LAST_STANDARD => Some(file),
        _ => None,
    }
}

/// A link for each worker.
fn links_of(rt: HostRuntime, alloc: Global) -> Result<Vec<DirLink<HostRuntime>>, AllocError>
    ensures { IfOk result (λ links. length links.items ≡ 16) }
{
    let mut links = Vec::new(alloc);
    'links: for _ in 0..LINKS {
        links.push(DirLink::new(alloc, rt))?;
    }
    Ok(links)
}

/// Says that memory is wanting, as `run` does.
fn no_memory(rt: &HostRuntime) -> ExitCode {
    let _ = write_all(&mut Outgoing::new(rt.stderr()), b"no memory\n");
    ExitCode::from(NO_MEMORY)
}

fn main(rt: HostRuntime) -> ExitCode {
    // So no file that is opened later is taken for a standard stream that is closed at the start.
    let _input = stand_in(&rt);
    let _output = stand_in(&rt);
    let _error = stand_in(&rt);
    let alloc = rt.alloc();
    let Ok(words) = words_of(&rt, alloc) else {
        return no_memory(&rt);
    };
    let Ok(mut links) = links_of(rt, alloc) else {
        return no_memory(&rt);
    };
    let status = run(
        &rt,
        alloc,
        &words,
        &mut Incoming::new(rt.stdin()),
        &mut Outgoing::new(rt.stdout()),
        &mut Outgoing::new(rt.stderr()),
        &mut DirKeeper::new(alloc, rt),
        &mut links,
    );
    ExitCode::from(status)
}
