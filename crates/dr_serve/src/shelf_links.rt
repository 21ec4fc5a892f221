// Links to files in memory.
ghost use Rattle.std.specs.Prelude.{◌≡◌, Some, All, IfOk, IsTrue, length};
ghost use Rattle.dr_outside.specs.Failing.{is_quiet};
ghost use Rattle.dr_outside.specs.MemLink.{link_failing, shelf_of};

use dr_memory::NoMemory;
use dr_outside::{MemLink, Shelf};
use std::alloc::Global;

// So many links to one shelf, none of which fails at a file that is there.
pub(crate) fn lent<'s>(
    alloc: Global,
    shelf: &'s Shelf,
    links: usize,
) -> Result<Vec<MemLink<'s>>, NoMemory>
    ensures count { IfOk result (λ v. length v.items ≡ links) }
    ensures shelf { IfOk result (λ v. All (λ l. shelf_of l ≡ shelf.entry.now) v.items) }
    ensures steady { IfOk result (λ v. All (λ l. IsTrue (is_quiet (link_failing l))) v.items) }
{
    let mut lent = Vec::new(alloc);
    'links: for _ in 0..links {
        lent.push(MemLink::new(alloc, shelf, Vec::new(alloc)))?;
    }
    Ok(lent)
}
