//! The files and the input that runs are given.

use dr_case_lines::{Broken, numbers_of, push_bytes, record_lines};
use dr_outside::{Keeper, Shelf};
use std::alloc::Global;

/// The files and the input that runs are given.
#[derive(Drop)]
pub struct Setting {
    alloc: Global,
    /// What the program writes to, and reads schemas and tables from.
    pub keeper: Shelf,
    /// The files that the links hold.
    pub shelf: Shelf,
    /// The paths that were put on the keeper.
    paths: Vec<String>,
    pub input: Vec<u8>,
}

impl Setting {
    /// No files, and an empty input.
    pub fn new(alloc: Global) -> Self {
        Setting {
            alloc,
            keeper: Shelf::new(alloc, Vec::new(alloc)),
            shelf: Shelf::new(alloc, Vec::new(alloc)),
            paths: Vec::new(alloc),
            input: Vec::new(alloc),
        }
    }

    /// Nothing is set up. The keeper's calls with these numbers fail.
    pub fn begin(&mut self, failing: &str) -> Result<(), Broken> {
        self.keeper = Shelf::new(self.alloc, numbers_of(self.alloc, failing)?);
        self.shelf = Shelf::new(self.alloc, Vec::new(self.alloc));
        self.paths = Vec::new(self.alloc);
        self.input = Vec::new(self.alloc);
        Ok(())
    }

    /// The keeper and the links hold this file.
    pub fn put(&mut self, path: &str, bytes: &[u8]) -> Result<(), Broken> {
        self.keeper.put(path, bytes)?;
        self.shelf.put(path, bytes)?;
        Ok(self.paths.push(String::from_str(self.alloc, path)?)?)
    }

    /// Another keeper of the files that were put on this one, of which this call fails, counted from 1 behind those
    /// that put them; 0 is none.
    pub fn keeper_of_same(&self, call: u64) -> Result<Shelf, Broken> {
        let puts = self.paths.len() as u64;
        let mut failing = Vec::new(self.alloc);
        if call > 0 {
            failing.push(puts.saturating_add(call))?;
        }
        let mut keeper = Shelf::new(self.alloc, failing);
        for path in &self.paths {
            let bytes = self.keeper.get(path.as_str()).unwrap_or(&[]);
            keeper.put(path.as_str(), bytes)?;
        }
        Ok(keeper)
    }

    /// The input is so many made records.
    pub fn make(&mut self, text: &str) -> Result<(), Broken> {
        let count = text.parse::<usize>().or(Err(Broken::Form))?;
        let mut input = Vec::new(self.alloc);
        for line in &record_lines(self.alloc, count)? {
            input.extend_from_slice(line.as_bytes())?;
        }
        self.input = input;
        Ok(())
    }

    /// The links hold what the keeper holds at a path.
    fn show_file(&mut self, path: &str) -> Result<(), Broken> {
        let bytes = self.keeper.get(path).ok_or(Broken::Form)?;
        self.shelf.put(path, bytes)?;
        Ok(self.paths.push(String::from_str(self.alloc, path)?)?)
    }

    /// The links hold what the keeper holds at these paths.
    pub fn show(&mut self, paths: &str) -> Result<(), Broken> {
        for path in paths.split_whitespace() {
            self.show_file(path)?;
        }
        Ok(())
    }

    /// The links hold the keeper's first tablets in directories, as `2 x y` says.
    pub fn show_tablets(&mut self, text: &str) -> Result<(), Broken> {
        let (count, directories) = text.split_once(' ').ok_or(Broken::Form)?;
        let count = count.parse::<u32>().or(Err(Broken::Form))?;
        for directory in directories.split_whitespace() {
            for tablet in 0..count {
                let path = format!(in self.alloc; "{directory}/t{tablet:06}.parquet")?;
                self.show_file(path.as_str())?;
            }
        }
        Ok(())
    }

    /// The bytes that the links hold at a path.
    fn held(&self, path: &str) -> Result<Vec<u8>, Broken> {
        let bytes = self.shelf.get(path).ok_or(Broken::Form)?;
        Ok(bytes.to_vec(self.alloc)?)
    }

    /// Has the links hold other bytes in a file from a place on, as `a.parquet 42 06 00` says.
    pub fn patch(&mut self, text: &str) -> Result<(), Broken> {
        let (path, text) = text.split_once(' ').ok_or(Broken::Form)?;
        let (place, text) = text.split_once(' ').ok_or(Broken::Form)?;
        let place = place.parse::<usize>().or(Err(Broken::Form))?;
        let mut bytes = Vec::new(self.alloc);
        push_bytes(text, &mut bytes)?;
        let mut file = self.held(path)?;
        for (there, byte) in file.iter_mut().skip(place).zip(bytes.iter()) {
            *there = *byte;
        }
        Ok(self.shelf.put(path, &file)?)
    }

    /// Has the links hold a file's first bytes alone, as `a.parquet 108` says.
    pub fn cut(&mut self, text: &str) -> Result<(), Broken> {
        let (path, count) = text.split_once(' ').ok_or(Broken::Form)?;
        let count = count.parse::<usize>().or(Err(Broken::Form))?;
        let mut file = self.held(path)?;
        file.truncate(count);
        Ok(self.shelf.put(path, &file)?)
    }

    /// Has the links hold a file without its last bytes, as `a.parquet 1` says.
    pub fn lose(&mut self, text: &str) -> Result<(), Broken> {
        let (path, count) = text.split_once(' ').ok_or(Broken::Form)?;
        let count = count.parse::<usize>().or(Err(Broken::Form))?;
        let mut file = self.held(path)?;
        file.truncate(file.len().saturating_sub(count));
        Ok(self.shelf.put(path, &file)?)
    }
}
