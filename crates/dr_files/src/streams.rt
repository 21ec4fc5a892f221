// The standard streams, or any reader and writer of std, as a source and as sinks.
ghost use Rattle.std.specs.Prelude.{◌≡◌, false, None};

use dr_outside::{Failed, Sink, Source};
use std::io::{Read, Write};

/// A source that reads from a reader. It doesn't tell what is left.
#[derive(Drop)]
pub struct Incoming<R> {
    reader: R,
    faults: u64,
}

impl<R: Read> Incoming<R> {
    /// The source of a reader. No fault is counted yet.
    pub fn new(reader: R) -> Self
        ensures { (⟦<Incoming<R> as Source>⟧.shows result).faults ≡ 0 }
    {
        Incoming { reader, faults: 0 }
    }
}

impl<R: Read> Source for Incoming<R> {
    ghost shows = { λ s. record { left = None; faults = s.faults; is_steady = false } };

    fn read(&mut self, buf: &mut [u8]) -> Result<usize, Failed> {
        match self.reader.read(buf) {
            Ok(count) => Ok(count),
            Err(_) => {
                self.faults = self.faults.saturating_add(1);
                Err(Failed)
            }
        }
    }
}

/// A sink that writes to a writer. It doesn't tell what was written.
#[derive(Drop)]
pub struct Outgoing<W> {
    writer: W,
    faults: u64,
    calls: u64,
}

impl<W: Write> Outgoing<W> {
    /// The sink of a writer. No fault and no call is counted yet.
    pub fn new(writer: W) -> Self
        ensures { (⟦<Outgoing<W> as Sink>⟧.shows result).faults ≡ 0 }
    {
        Outgoing {
            writer,
            faults: 0,
            calls: 0,
        }
    }
}

impl<W: Write> Sink for Outgoing<W> {
    ghost shows = { λ s. record { written = None; faults = s.faults; calls = s.calls } };

    fn write(&mut self, piece: &[u8]) -> Result<usize, Failed> {
        self.calls = self.calls.saturating_add(1);
        match self.writer.write(piece) {
            Ok(count) if count > 0 || piece.is_empty() => Ok(count),
            _ => {
                self.faults = self.faults.saturating_add(1);
                Err(Failed)
            }
        }
    }
}
