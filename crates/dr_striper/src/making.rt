//! The type of a striper.

ghost use Rattle.dr_striper.specs.Striping.{leaves_of};
ghost use Rattle.dr_striper.specs.Records.{Grows};
ghost use Rattle.dr_striper.specs.Single.{Grows-prop};
ghost use Rattle.dr_striper.specs.Views.{nulls, shapes_view, twigs_view};

use crate::branch::Branch;
use dr_levels::Levels;
use dr_nested::Path;

/// Stripes records into the columns of some leaves: a tree of them, which grows only where a record has something.
#[derive(Drop)]
pub struct Striper<'a> {
    pub(crate) fields: &'a [Path],
    /// A pair for each record.
    pub(crate) levels: Vec<Levels>,
    pub(crate) branches: Vec<Branch>,
    pub ghost grows: { Grows (leaves_of fields.now) (nulls levels.items) (shapes_view branches.items)
        (twigs_view branches.items) } by { Grows-prop (leaves_of fields.now) (nulls levels.items)
            (shapes_view branches.items) (twigs_view branches.items) },
}
