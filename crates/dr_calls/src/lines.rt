//! Lines of a source that gives a few bytes at once, as that of a command never does.

ghost use Rattle.std.specs.Prelude.{None};
ghost use Rattle.dr_outside.specs.Failing.{is_quiet};

use crate::faults::line_name;
use crate::texts::{argument, count_of, line_of, number_at};
use dr_case_lines::Broken;
use dr_lines::Lines;
use dr_outside::{Failed, MemSource, Source};
use std::alloc::Global;

/// A source that gives at most this many bytes at once, and doesn't tell what is left.
#[derive(Drop)]
struct Dripping<'a> {
    source: MemSource<'a>,
    most: usize,
}

impl Source for Dripping<'_> {
    ghost shows = { λ s. record {
      left = None;
      faults = s.source.failing.faults;
      is_steady = is_quiet s.source.failing;
    } };

    fn read(&mut self, buf: &mut [u8]) -> Result<usize, Failed> {
        let most = self.most.min(buf.len());
        self.source.read(&mut buf[..most])
    }
}

/// The longest line that is shown, in bytes; of a longer one its length is told.
const LONGEST_SHOWN: usize = 20;

/// The answer of a call: a line, `end`, or the fault.
fn next_text(
    alloc: Global,
    lines: &mut Lines,
    source: &mut Dripping<'_>,
) -> Result<String, Broken> {
    match lines.next(source) {
        Ok(true) => {
            let line = lines.line();
            if line.len() > LONGEST_SHOWN {
                return Ok(format!(in alloc; "{} bytes\n", line.len())?);
            }
            let line = str::from_utf8(line).or(Err(Broken::Form))?;
            Ok(format!(in alloc; "{line:?}\n")?)
        }
        Ok(false) => line_of(alloc, "end"),
        Err(fault) => line_of(alloc, line_name(fault)),
    }
}

/// `lines MOST CALLS FAILING ..`: what so many calls answer, a line each, where at most so many bytes come at once and
/// reads of these numbers fail; then how many failed.
pub fn lines_cut(alloc: Global, words: &[String], bytes: &[u8]) -> Result<String, Broken> {
    let most = count_of(argument(words, 0)?)?;
    let calls = number_at(words, 1)?;
    let mut failing = Vec::new(alloc);
    for word in words.iter().skip(3) {
        failing.push(word.as_str().parse::<u64>().or(Err(Broken::Form))?)?;
    }
    let source = MemSource::new(bytes, failing);
    let mut source = Dripping { source, most };
    let mut lines = Lines::new(alloc)?;
    let mut text = String::new(alloc);
    for _ in 0..calls {
        let answer = next_text(alloc, &mut lines, &mut source)?;
        text.push_str(answer.as_str())?;
    }
    let faults = source.source.faults();
    text.push_str(format!(in alloc; "{faults} failed\n")?.as_str())?;
    Ok(text)
}
