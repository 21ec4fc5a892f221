//! Records added to a tree.

ghost use Rattle.std.specs.Prelude.{◌≡◌, true, take, OnOk};
ghost use Rattle.std.specs.List.{list_all};
ghost use Rattle.dr_nested.specs.PathView.{paths_view};
ghost use Rattle.dr_striper.specs.Striping.{leaves_of};
ghost use Rattle.dr_striper.specs.Stripers.{AddsRecord, fits_leaf, record_in, IsRecord};
ghost use Rattle.dr_striper.specs.Records.{columns_in, Grows};
ghost use Rattle.dr_striper.specs.Lent.{AllLend};
ghost use Rattle.dr_striper.specs.Back.{backs};
ghost use Rattle.dr_striper.specs.Views.{nulls, twigs_view, shapes_view};

use crate::branch::Branch;
use crate::cutting::take_back;
use crate::ending::end;
use crate::held::Held;
use crate::passing::stripe_group;
use dr_levels::Levels;
use dr_nested::{NoMemory, Path};

/// Takes back the record that follows so many others.
fn take_record_back(levels: &mut Vec<Levels>, branches: &mut [Branch], kept: usize)
    ensures levels { (levels.new).items ≡ take kept (levels.old).items }
    ensures back { twigs_view branches.new ≡ backs kept branches.old }
    ensures shapes { shapes_view branches.new ≡ shapes_view branches.old }
{
    levels.truncate(kept);
    take_back(branches, kept);
}

/// Appends what a record gives to the column of each leaf.
pub(crate) fn stripe_record<H: Held>(
    fields: &[Path],
    levels: &mut Vec<Levels>,
    branches: &mut [Branch],
    held: H,
) -> Result<(), NoMemory>
    requires group { IsRecord (H.shows held) }
    requires grows { Grows (leaves_of fields.now) (nulls levels.old.items) (shapes_view branches.old)
        (twigs_view branches.old) }
    requires fits { list_all (fits_leaf (record_in (H.shows held))) (leaves_of fields.now) ≡ true }
    ensures columns { AddsRecord (record_in (H.shows held)) (paths_view fields.now)
        (columns_in (paths_view fields.now) (nulls levels.old.items) (twigs_view branches.old))
        (columns_in (paths_view fields.now) (nulls levels.new.items) (twigs_view branches.new)) result }
    ensures grows { Grows (leaves_of fields.now) (nulls levels.new.items) (shapes_view branches.new)
        (twigs_view branches.new) }
{
    let kept = levels.len();
    levels.push(Levels {
        repetition: 0,
        definition: 0,
    })?;
    match stripe_group::<H>(branches, kept, levels, held, 0, 0, 0) {
        Ok(()) => Ok(()),
        Err(NoMemory) => {
            take_record_back(levels, branches, kept);
            Err(NoMemory)
        }
    }
}

/// Brings each column that has anything up to the last record.
pub(crate) fn end_records(
    fields: &[Path],
    levels: &[Levels],
    branches: &mut [Branch],
) -> Result<(), NoMemory>
    requires grows { Grows (leaves_of fields.now) (nulls levels.now) (shapes_view branches.old)
        (twigs_view branches.old) }
    ensures columns { OnOk result (columns_in (paths_view fields.now) (nulls levels.now) (twigs_view branches.new)
        ≡ columns_in (paths_view fields.now) (nulls levels.now) (twigs_view branches.old)) }
    ensures lends { OnOk result (AllLend (leaves_of fields.now) (nulls levels.now) (shapes_view branches.new)
        (twigs_view branches.new)) }
    ensures shapes { shapes_view branches.new ≡ shapes_view branches.old }
{
    end(branches, levels)?;
    Ok(())
}
