//! A call that the lines of a block describe, and the answer that it is to give.

use crate::calls::answer;
use dr_case_lines::{Broken, Place, Tally, push_copies, push_text, words_of};
use std::alloc::Global;
use std::mem;

/// A call that the lines of a block describe, and the answer that it is to give.
#[derive(Drop)]
pub struct Session {
    alloc: Global,
    /// The call's name and its arguments; none where no call is described.
    words: Vec<String>,
    /// The bytes that it is given.
    bytes: Vec<u8>,
    /// The answer in lines.
    out: Vec<u8>,
    /// Whether the lines of text are those of the answer.
    has_out: bool,
}

impl Session {
    /// No call is described.
    pub fn new(alloc: Global) -> Self {
        Session {
            alloc,
            words: Vec::new(alloc),
            bytes: Vec::new(alloc),
            out: Vec::new(alloc),
            has_out: false,
        }
    }

    /// Takes a line of a block.
    pub fn take_line(&mut self, line: &str) -> Result<(), Broken> {
        let alloc = self.alloc;
        let (head, rest) = line.split_once(' ').unwrap_or((line, ""));
        let text = if self.has_out {
            &mut self.out
        } else {
            &mut self.bytes
        };
        if head == "#" || push_text(head, rest, text)? {
            return Ok(());
        }
        match head {
            "many" => push_copies(alloc, rest, text),
            "call" => {
                self.words = words_of(alloc, rest)?;
                Ok(())
            }
            "+" => Ok(self.words.push(String::from_str(alloc, rest)?)?),
            "out" => {
                self.has_out = true;
                Ok(())
            }
            _ => Err(Broken::Form),
        }
    }

    /// Ends a block: its call is made, if it has one.
    pub fn end(&mut self, place: Place<'_>, tally: &mut Tally) -> Result<(), Broken> {
        let case = mem::replace(self, Session::new(self.alloc));
        if case.words.is_empty() {
            return Ok(());
        }
        tally.count();
        let found = answer(case.alloc, &case.words, &case.bytes)?;
        if found.as_bytes() != case.out.as_slice() {
            tally.fail(place, "answers in another way")?;
            tally.tell(&case.words, found.as_str())?;
        }
        Ok(())
    }
}
