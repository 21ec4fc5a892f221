ghost use Rattle.std.specs.Prelude.{◌≡◌};

use dr_outside::{Fault, Gate, Link};

/// A worker's link behind a gate, which is passed before each read. It shows what the link shows.
#[derive(Drop)]
pub struct Gated<'g, L, G> {
    pub link: L,
    gate: &'g G,
    worker: u32,
    reads: u64,
}

impl<'g, L, G> Gated<'g, L, G> {
    /// The link of the worker with this number, before its first read.
    pub fn new(link: L, gate: &'g G, worker: u32) -> Self
        ensures { result.link ≡ link }
    {
        Gated {
            link,
            gate,
            worker,
            reads: 0,
        }
    }
}

impl<'g, L: Link, G: Gate> Gated<'g, L, G> {
    // A read is next.
    fn pass(&mut self)
        ensures { self.new.link ≡ self.old.link }
    {
        self.gate.at(self.worker, self.reads);
        self.reads = self.reads.saturating_add(1);
    }
}

impl<'g, L: Link, G: Gate> Link for Gated<'g, L, G> {
    ghost shows = { λ g. L.shows g.link };

    fn size(&mut self, path: &str) -> Result<u64, Fault> {
        self.pass();
        self.link.size(path)
    }

    fn read_at(&mut self, path: &str, at: u64, buf: &mut [u8]) -> Result<(), Fault> {
        self.pass();
        self.link.read_at(path, at, buf)
    }

    fn faults(&self) -> u64 {
        self.link.faults()
    }
}
