//! What the instructions of a file have set up, and the run that they are to come to.

use crate::case::{Case, Hold};
use crate::each::Each;
use crate::runs::try_case;
use crate::setting::Setting;
use dr_case_lines::{Broken, Place, Tally, numbers_of, push_copies, push_text, words_of};
use dr_words::USAGE;
use std::alloc::Global;
use std::mem;
use std::sync::Wait;
use std::thread::Threads;

/// What the lines of text are that follow.
#[derive(Clone, Copy, PartialEq, Eq)]
enum Purpose {
    Nothing,
    File,
    Holds,
    Input,
    Word,
    Out,
    Err,
}

/// What the instructions of a file have set up, and the run that they are to come to.
#[derive(Drop)]
pub struct Session {
    alloc: Global,
    setting: Setting,
    ways: Vec<String>,
    case: Case,
    purpose: Purpose,
    path: String,
    text: Vec<u8>,
    /// What the last run printed.
    printed: Vec<u8>,
    checks: u64,
    wrong: u64,
}

impl Session {
    /// Nothing is set up.
    pub fn new(alloc: Global) -> Self {
        Session {
            alloc,
            setting: Setting::new(alloc),
            ways: Vec::new(alloc),
            case: Case::new(alloc),
            purpose: Purpose::Nothing,
            path: String::new(alloc),
            text: Vec::new(alloc),
            printed: Vec::new(alloc),
            checks: 0,
            wrong: 0,
        }
    }

    /// Takes a line of a block.
    pub fn take_line(&mut self, line: &str) -> Result<(), Broken> {
        let (head, rest) = line.split_once(' ').unwrap_or((line, ""));
        if head == "#" || push_text(head, rest, &mut self.text)? {
            return Ok(());
        }
        if head == "many" {
            return push_copies(self.alloc, rest, &mut self.text);
        }
        self.end_text()?;
        self.obey(head, rest)
    }

    /// The lines of text go where they are to.
    fn end_text(&mut self) -> Result<(), Broken> {
        let text = mem::replace(&mut self.text, Vec::new(self.alloc));
        let purpose = self.purpose;
        self.purpose = Purpose::Nothing;
        match purpose {
            Purpose::Nothing => {
                if !text.is_empty() {
                    return Err(Broken::Form);
                }
            }
            Purpose::File => self.setting.put(self.path.as_str(), &text)?,
            Purpose::Holds => {
                let holds = self.setting.keeper.get(self.path.as_str()) == Some(text.as_slice());
                self.check(holds);
            }
            Purpose::Input => self.setting.input = text,
            Purpose::Word => {
                let word = str::from_utf8(&text).or(Err(Broken::Form))?;
                self.push_word(word)?
            }
            Purpose::Out => self.case.out = text,
            Purpose::Err => self.case.err = text,
        }
        Ok(())
    }

    /// A check of the keeper was made.
    fn check(&mut self, holds: bool) {
        self.checks = self.checks.saturating_add(1);
        if !holds {
            self.wrong = self.wrong.saturating_add(1);
        }
    }

    /// The run has one more word.
    fn push_word(&mut self, word: &str) -> Result<(), Broken> {
        Ok(self.case.words.push(String::from_str(self.alloc, word)?)?)
    }

    /// Follows an instruction that texts stand behind, or that says how a run ends.
    fn obey(&mut self, head: &str, rest: &str) -> Result<(), Broken> {
        match head {
            "file" => self.begin_text(Purpose::File, rest)?,
            "holds" => self.begin_text(Purpose::Holds, rest)?,
            "in" => self.begin_text(Purpose::Input, rest)?,
            "word" => self.begin_text(Purpose::Word, rest)?,
            "out" => {
                self.case.has_out = true;
                self.begin_text(Purpose::Out, rest)?
            }
            "err" => self.begin_text(Purpose::Err, rest)?,
            "usage" => self.case.err = USAGE.as_bytes().to_vec(self.alloc)?,
            "status" => self.case.status = rest.parse::<u8>().or(Err(Broken::Form))?,
            "narrow" => self.case.most = rest.parse::<usize>().or(Err(Broken::Form))?,
            "fails" => self.case.fail(self.alloc, rest)?,
            "dead" => self.case.dead = numbers_of(self.alloc, rest)?,
            "meet" => self.case.hold = Hold::Meeting,
            "late" => self.case.hold = Hold::Late(rest.parse::<u64>().or(Err(Broken::Form))?),
            "each" => self.case.each.push(Each::of_line(self.alloc, rest)?)?,
            _ => self.obey_more(head, rest)?,
        }
        Ok(())
    }

    /// Follows an instruction that sets something up, or says what is run.
    fn obey_more(&mut self, head: &str, rest: &str) -> Result<(), Broken> {
        match head {
            "new" => {
                self.ways = Vec::new(self.alloc);
                self.setting.begin(rest)?;
            }
            "run" => {
                self.case.is_run = true;
                self.case.words = words_of(self.alloc, rest)?;
            }
            "+" => self.push_word(rest)?,
            "ask" => {
                self.case.is_asked = true;
                self.push_word(rest)?;
            }
            "way" => self.ways.push(String::from_str(self.alloc, rest)?)?,
            "made" => self.setting.make(rest)?,
            "piped" => self.setting.input = self.printed.clone()?,
            "show" => self.setting.show(rest)?,
            "tablets" => self.setting.show_tablets(rest)?,
            "patch" => self.setting.patch(rest)?,
            "cut" => self.setting.cut(rest)?,
            "lose" => self.setting.lose(rest)?,
            "lacks" => {
                let lacks = self.setting.keeper.get(rest).is_none();
                self.check(lacks);
            }
            _ => return Err(Broken::Form),
        }
        Ok(())
    }

    /// The lines of text that follow are for this purpose.
    fn begin_text(&mut self, purpose: Purpose, path: &str) -> Result<(), Broken> {
        self.purpose = purpose;
        self.path = String::from_str(self.alloc, path)?;
        Ok(())
    }

    /// Ends a block: its run is made, if it has one.
    pub fn end<R: Threads + Wait + Sync>(
        &mut self,
        rt: &R,
        place: Place<'_>,
        tally: &mut Tally,
    ) -> Result<(), Broken> {
        self.end_text()?;
        let mut case = mem::replace(&mut self.case, Case::new(self.alloc));
        if case.is_asked {
            self.ask(rt, &mut case, place, tally)?;
        } else if case.is_run {
            self.printed = try_case(
                rt,
                self.alloc,
                &mut self.setting,
                &mut case,
                "",
                place,
                tally,
            )?;
        }
        self.end_checks(place, tally)
    }

    /// Asks a query in each way.
    fn ask<R: Threads + Wait + Sync>(
        &mut self,
        rt: &R,
        case: &mut Case,
        place: Place<'_>,
        tally: &mut Tally,
    ) -> Result<(), Broken> {
        if self.ways.is_empty() {
            return Err(Broken::Form);
        }
        for way in &self.ways {
            try_case(
                rt,
                self.alloc,
                &mut self.setting,
                case,
                way.as_str(),
                place,
                tally,
            )?;
        }
        Ok(())
    }

    /// Counts the checks of the keeper that the block made.
    fn end_checks(&mut self, place: Place<'_>, tally: &mut Tally) -> Result<(), Broken> {
        for _ in 0..self.checks {
            tally.count();
        }
        for _ in 0..self.wrong {
            tally.fail(place, "the keeper holds something else")?;
        }
        self.checks = 0;
        self.wrong = 0;
        Ok(())
    }
}
