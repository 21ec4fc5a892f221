//! Pages.

ghost use Rattle.std.specs.Prelude.{◌≡◌, ◌≤◌, ◌++◌, OnOk};
ghost use Rattle.dr_levels.specs.Views.{triplets_form};
ghost use Rattle.dr_page.specs.Views.{page_form_view};
ghost use Rattle.dr_page.specs.Writes.{AreWritable};
ghost use Rattle.dr_write.specs.Chunks.{page_for};

use crate::heads::page_head;
use dr_compact::write_struct;
use dr_levels::Triplets;
use dr_memory::NoMemory;
use dr_meta::tree_of_page;
use dr_page::{BodyWriter, PageForm};
use std::alloc::Global;

/// Writes pages, with buffers that are used again page after page.
#[derive(Drop)]
pub(crate) struct PageWriter {
    alloc: Global,
    bodies: BodyWriter,
    body: Vec<u8>,
}

impl PageWriter {
    /// A writer with empty buffers. Takes no memory.
    pub(crate) fn new(alloc: Global) -> PageWriter {
        PageWriter {
            alloc,
            bodies: BodyWriter::new(alloc),
            body: Vec::new(alloc),
        }
    }

    /// Appends a page of this form of these triplets: its header, and its body.
    ///
    /// Errors: want of memory alone; some bytes may have joined then.
    pub(crate) fn append(
        &mut self,
        form: PageForm,
        triplets: Triplets<'_>,
        max_repetition: u8,
        out: &mut Vec<u8>,
    ) -> Result<(), NoMemory>
        requires repetition { max_repetition ≤ 32 }
        requires definition { (triplets_form triplets).greatest ≤ 32 }
        requires writable { AreWritable max_repetition triplets }
        ensures { OnOk result ((out.new).items
            ≡ (out.old).items ++ page_for (page_form_view form) max_repetition triplets.entry) }
    {
        self.body.clear();
        let lengths = self
            .bodies
            .write(form, triplets, max_repetition, &mut self.body)?;
        let head = page_head(form, triplets, lengths, self.body.len())?;
        let tree = tree_of_page(self.alloc, &head)?;
        write_struct(&tree, out)?;
        out.extend_from_slice(&self.body)?;
        Ok(())
    }
}
