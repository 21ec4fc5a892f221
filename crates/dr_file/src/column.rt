//! The columns of an opened file.

use crate::file_fault::FileFault;
use crate::opened::Opened;
use crate::stream::Stream;
use dr_levels::Column;
use dr_outside::Link;
use std::alloc::Global;

impl Opened {
    ghost use Rattle.std.specs.Prelude.{◌≡◌, ◌≤◌, ◌<◌, [], ◌∷◌, length, IfOk, IfErr};
    ghost use Rattle.dr_meaning.specs.Path.{max_definition};
    ghost use Rattle.dr_formats.specs.File.{most_triplets};
    ghost use Rattle.dr_formats.specs.Opening.{leaf_cause};
    ghost use Rattle.dr_levels.specs.Views.{column_view, column_form, form};
    ghost use Rattle.dr_outside.specs.Telling.{Tells, AsksOnly};
    ghost use Rattle.dr_file.specs.Asking.{is_for_path, AsksForLeaves};
    ghost use Rattle.dr_file.specs.OpenedFiles.{IsColumnOf, IsColumnFault, leaf_count, path_of, OverLeafAt, OverLeafByFooter};
    ghost use Rattle.dr_file.specs.Leaving.{LeavesLinkCounted, ServesOpened};

    /// The column of the leaf at an index of those that the file was opened for. The link is asked for bytes of the
    /// leaf's own chunks, or of those of the leaf that stands in for it.
    ///
    /// Errors: the link failed, with its counts of faults before and after this call; `BadData` where these chunks
    /// spell no column of any records; want of memory.
    pub fn column<L: Link>(
        &self,
        alloc: Global,
        link: &mut L,
        index: usize,
    ) -> Result<Column, FileFault>
        requires { index < leaf_count self.now }
        ensures column { OverLeafAt self.now index (λ bytes l. Tells (L.shows link.old) (path_of self.now) bytes
            → IfOk result (λ c. IsColumnOf bytes l (column_view c))) }
        ensures cause { OverLeafAt self.now index (λ bytes l. Tells (L.shows link.old) (path_of self.now) bytes
            → IfErr result (λ e. IsColumnFault e (leaf_cause bytes l))) }
        ensures few { IfOk result (λ c. length (column_view c) ≤ most_triplets) }
        ensures form { OverLeafAt self.now index (λ bytes l.
            IfOk result (λ c. column_form c ≡ form l.kind (max_definition l.path))) }
        ensures asked { OverLeafByFooter self.now index (λ f l.
            AsksForLeaves f (l ∷ []) (path_of self.now) (L.shows link.old) (L.shows link.new)) }
        ensures paths { AsksOnly (is_for_path (path_of self.now)) (L.shows link.old).asked (L.shows link.new).asked }
        ensures link { LeavesLinkCounted result (ServesOpened (L.shows link.old) self.now) (L.shows link.old)
            (L.shows link.new) }
    {
        let mut stream = Stream::start(alloc, self, index)?;
        let mut column = stream.column(alloc);
        'batches: while stream.next(alloc, link, &mut column)? {}
        Ok(column)
    }
}
