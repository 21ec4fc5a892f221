//! Leaves beside one another.

ghost use Rattle.std.specs.Prelude.{◌≡◌, ◌<◌, [], length, true, IfOk};
ghost use Rattle.std.specs.List.{list_all};
ghost use Rattle.dr_nested.specs.PathView.{paths_view};

use dr_agreement::front_of;
use dr_memory::NoMemory;
use dr_nested::Path;
use std::alloc::Global;

/// A leaf that is read beside a deeper one: it goes on where the deeper one's repetition level is at most this.
#[derive(Clone, Copy)]
pub struct Beside {
    pub leaf: u32,
    pub depth: u8,
}

ghost use Rattle.dr_rows_beside.specs.Sources.{is_among as meant_among, with_beside, all_beside, is_numbered};

/// Whether a leaf is among those that are read beside one.
fn is_among(leaf: u32, beside: &[Beside]) -> bool
    ensures { result ≡ meant_among leaf beside.now }
{
    match beside {
        [] => false,
        [first, rest @ ..] => first.leaf == leaf || is_among(leaf, rest),
    }
}

/// Appends a leaf, if it is neither the one beside which it is read nor among those that are there.
///
/// Errors: want of memory alone.
fn push_beside(
    leaves: &[Path],
    last: u32,
    leaf: u32,
    beside: &mut Vec<Beside>,
) -> Result<(), NoMemory>
    requires { leaf < length leaves.now }
    ensures { IfOk result (λ done. (beside.new).items
        ≡ with_beside (paths_view leaves.now) last (beside.old).items leaf) }
{
    if leaf != last && !is_among(leaf, beside) {
        let whole = front_of(leaves, leaf as usize, leaf as usize);
        beside.push(Beside {
            leaf,
            depth: whole.repeated,
        })?;
    }
    Ok(())
}

/// A leaf whose triplets are rows, and those beside it.
#[derive(Drop)]
pub struct Source {
    pub leaf: u32,
    pub beside: Vec<Beside>,
}

impl Source {
    /// A leaf and those that are read beside it, each once.
    ///
    /// Errors: want of memory alone.
    pub fn new(alloc: Global, leaves: &[Path], last: u32, read: &[u32]) -> Result<Source, NoMemory>
        requires { list_all (is_numbered (length leaves.now)) read.now ≡ true }
        ensures leaf { IfOk result (λ s. s.leaf ≡ last) }
        ensures beside { IfOk result (λ s. (s.beside).items ≡ all_beside (paths_view leaves.now) last [] read.now) }
    {
        let mut beside: Vec<Beside> = Vec::new(alloc);
        'read: for leaf in read {
            push_beside(leaves, last, *leaf, &mut beside)?;
        }
        Ok(Source { leaf: last, beside })
    }
}
