//! Values of a dictionary.

ghost use Rattle.dr_plain.specs.Picking.{picked};
ghost use Rattle.dr_page.specs.Reads.{Reads};

use crate::fault::PageFault;

/// Puts the items at these indices into the place of others.
pub(crate) fn pick_items<T: Copy + Drop>(
    items: &[T],
    indices: &[u32],
    out: &mut Vec<T>,
) -> Result<(), PageFault>
    ensures { Reads (picked items.now indices.now) (out.new).items result }
{
    out.clear();
    out.reserve(indices.len())?;
    'indices: for index in indices {
        let index = *index as usize;
        if index >= items.len() {
            return Err(PageFault::BadData);
        }
        out.push_reserved(items[index]);
    }
    Ok(())
}
