/// Where a worker may be held up.
pub trait Gate {
    /// A worker is about to read, and has made this many reads.
    fn at(&self, worker: u32, reads: u64);
}

/// A gate that holds nobody up.
#[derive(Clone, Copy, Debug)]
pub struct OpenGate;

impl Gate for OpenGate {
    fn at(&self, _worker: u32, _reads: u64) {}
}
