//! Vectors of strips to be used again.

ghost use Rattle.std.specs.Prelude.{◌≡◌, [], map, IfOk};
ghost use Rattle.dr_assemble.specs.Restoring as restoring;
ghost use Rattle.dr_assemble.specs.Views.{strips_view};

use crate::strip::Strip;
use std::alloc::{AllocError, Global};

/// Vectors that aren't in use, so that as many are made as are used at one time.
#[derive(Drop)]
pub struct Spare<'a> {
    alloc: Global,
    vectors: Vec<Vec<Strip<'a>>>,
}

impl<'a> Spare<'a> {
    /// None yet.
    pub fn new(alloc: Global) -> Spare<'a> {
        Spare {
            alloc,
            vectors: Vec::new(alloc),
        }
    }

    /// An empty vector.
    fn empty(&mut self) -> Vec<Strip<'a>>
        ensures { result.items ≡ [] }
    {
        match self.vectors.pop() {
            Some(vector) => {
                let mut vector = vector;
                vector.clear();
                vector
            }
            None => Vec::new(self.alloc),
        }
    }

    /// The strips, to be cut.
    pub fn copied(&mut self, strips: &[Strip<'a>]) -> Result<Vec<Strip<'a>>, AllocError>
        ensures { IfOk result (λ v. v.items ≡ strips.now) }
    {
        let mut copied = self.empty();
        copied.extend_from_slice(strips)?;
        Ok(copied)
    }

    /// The strips without their first steps.
    pub fn without_steps(&mut self, strips: &[Strip<'a>]) -> Result<Vec<Strip<'a>>, AllocError>
        ensures { IfOk result (λ v. strips_view v.items ≡ map restoring.without_step (strips_view strips.now)) }
    {
        let mut rests = self.empty();
        'strips: for strip in strips {
            rests.push(strip.without_step())?;
        }
        Ok(rests)
    }

    /// Takes a vector that is used no more.
    pub fn give_back(&mut self, vector: Vec<Strip<'a>>) -> Result<(), AllocError> {
        self.vectors.push(vector)?;
        Ok(())
    }
}
