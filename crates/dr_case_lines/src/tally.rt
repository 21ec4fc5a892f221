//! How many cases were run, and those that ended in another way than they say.

use crate::broken::Broken;
use std::alloc::Global;

/// A line of a file of cases.
#[derive(Clone, Copy, Debug)]
pub struct Place<'a> {
    pub file: &'a str,
    /// The number of the line, counted from 1.
    pub line: usize,
}

/// How many cases were run, and those that ended in another way than they say.
#[derive(Drop)]
pub struct Tally {
    alloc: Global,
    cases: u64,
    failed: u64,
    report: String,
}

impl Tally {
    /// No case was run.
    pub fn new(alloc: Global) -> Self {
        Tally {
            alloc,
            cases: 0,
            failed: 0,
            report: String::new(alloc),
        }
    }

    /// A case was run.
    pub fn count(&mut self) {
        self.cases = self.cases.saturating_add(1);
    }

    /// The case that ends at this line failed.
    pub fn fail(&mut self, place: Place<'_>, what: &str) -> Result<(), Broken> {
        self.failed = self.failed.saturating_add(1);
        let (file, line) = (place.file, place.line);
        let text = format!(in self.alloc; "{file}:{line}: {what}\n")?;
        Ok(self.report.push_str(text.as_str())?)
    }

    /// What came of the words of the case that failed.
    pub fn tell(&mut self, words: &[String], end: &str) -> Result<(), Broken> {
        for word in words {
            self.report.push_str(" ")?;
            self.report.push_str(word.as_str())?;
        }
        self.report.push_str("\n")?;
        Ok(self.report.push_str(end)?)
    }

    /// What failed, and the two numbers.
    pub fn text(&self) -> Result<String, Broken> {
        let (report, cases, failed) = (self.report.as_str(), self.cases, self.failed);
        Ok(format!(in self.alloc; "{report}{cases} cases, {failed} failed\n")?)
    }
}
