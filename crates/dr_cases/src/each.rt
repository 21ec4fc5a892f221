//! How the runs are to end in which one call fails.

use crate::case::{Case, Thing};
use crate::ended::Ended;
use dr_case_lines::Broken;
use std::alloc::Global;

/// How the runs are to end in which one call of a thing fails.
#[derive(Drop)]
pub struct Each {
    pub thing: Thing,
    status: u8,
    err: Vec<u8>,
}

impl Each {
    /// What `source 4 outside: source` says: the thing, the status, and the line on standard error, if there is one.
    pub fn of_line(alloc: Global, text: &str) -> Result<Self, Broken> {
        let (thing, end) = text.split_once(' ').ok_or(Broken::Form)?;
        let (status, said) = end.split_once(' ').unwrap_or((end, ""));
        let mut err = said.as_bytes().to_vec(alloc)?;
        if !err.is_empty() {
            err.push(10)?;
        }
        Ok(Each {
            thing: Thing::named(thing)?,
            status: status.parse::<u8>().or(Err(Broken::Form))?,
            err,
        })
    }

    /// Whether a run of this case ended so. With the status of the case it printed all; else nothing, or a beginning of
    /// it where a write failed.
    pub fn ends_so(&self, case: &Case, ended: &Ended) -> bool {
        ended.status == self.status && ended.err == self.err && self.prints_so(case, ended)
    }

    /// Whether such a run may print this.
    fn prints_so(&self, case: &Case, ended: &Ended) -> bool {
        if self.status == case.status {
            ended.out == case.out
        } else if self.thing == Thing::Out {
            case.out.starts_with(&ended.out)
        } else {
            ended.out.is_empty()
        }
    }
}
