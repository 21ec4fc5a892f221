//! A gate that holds workers up.

use crate::case::Hold;
use dr_outside::Gate;
use std::sync::atomic::{AtomicBool, AtomicU64, Ordering};

/// How often a worker looks whether it may go on.
const MOST_LOOKS: u64 = 1_000_000_000;

/// A gate that holds workers up before their reads, as a case says.
#[derive(Drop)]
pub struct Holding {
    hold: Hold,
    first_came: AtomicBool,
    second_came: AtomicBool,
    /// How many reads all workers but the first have begun.
    others: AtomicU64,
    /// Whether one waited in vain.
    is_missed: AtomicBool,
}

impl Holding {
    /// Before any read.
    pub fn new(hold: Hold) -> Self {
        Holding {
            hold,
            first_came: AtomicBool::new(false),
            second_came: AtomicBool::new(false),
            others: AtomicU64::new(0),
            is_missed: AtomicBool::new(false),
        }
    }

    /// Whether those who were to be held came, and none waited in vain.
    pub fn was_kept(&self) -> bool {
        let came = match self.hold {
            Hold::Nobody => true,
            Hold::Meeting => {
                self.first_came.load(Ordering::SeqCst) && self.second_came.load(Ordering::SeqCst)
            }
            Hold::Late(_) => self.first_came.load(Ordering::SeqCst),
        };
        came && !self.is_missed.load(Ordering::SeqCst)
    }

    // Waits for another worker.
    fn wait(&self, other: &AtomicBool) {
        for _ in 0..MOST_LOOKS {
            if other.load(Ordering::SeqCst) {
                return;
            }
        }
        self.is_missed.store(true, Ordering::SeqCst);
    }

    // Waits until all workers but the first have begun so many reads.
    fn wait_for_reads(&self, reads: u64) {
        for _ in 0..MOST_LOOKS {
            if self.others.load(Ordering::SeqCst) >= reads {
                return;
            }
        }
        self.is_missed.store(true, Ordering::SeqCst);
    }

    // The first two workers meet before their first reads.
    fn meet(&self, worker: u32) {
        match worker {
            0 => {
                self.first_came.store(true, Ordering::SeqCst);
                self.wait(&self.second_came);
            }
            1 => {
                self.second_came.store(true, Ordering::SeqCst);
                self.wait(&self.first_came);
            }
            _ => {}
        }
    }

    // The first worker's first read is late; the others read only when it has come.
    fn pass_late(&self, worker: u32, reads: u64, wanted: u64) {
        if worker == 0 {
            if reads == 0 {
                self.first_came.store(true, Ordering::SeqCst);
                self.wait_for_reads(wanted);
            }
        } else {
            if reads == 0 {
                self.wait(&self.first_came);
            }
            self.others.fetch_add(1, Ordering::SeqCst);
        }
    }
}

impl Gate for Holding {
    fn at(&self, worker: u32, reads: u64) {
        match self.hold {
            Hold::Nobody => {}
            Hold::Meeting => {
                if reads == 0 {
                    self.meet(worker);
                }
            }
            Hold::Late(wanted) => self.pass_late(worker, reads, wanted),
        }
    }
}
