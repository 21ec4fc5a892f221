//! What a line gives to columns.

ghost use Rattle.std.specs.Prelude.{◌≡◌, true};
ghost use Rattle.std.specs.List.{list_all};
ghost use Rattle.dr_striper.specs.Stripers.{AddsRecord, fits_leaf, striped, striped_leaves, striped_paths};
ghost use Rattle.dr_json.specs.Parts.{line_node};

use crate::part::Part;
use crate::raw_held::RawPart;
use crate::record::{LineRecord, LineValue};
use dr_nested::NoMemory;
use dr_striper::Striper;

impl<'r> LineRecord<'r> {
    /// Appends what it gives to the columns of a striper.
    ///
    /// Errors: want of memory, or of room for texts; the columns are then as they were.
    pub fn stripe(&self, striper: &mut Striper<'_>) -> Result<(), NoMemory>
        requires fits { list_all (fits_leaf (line_node self.now)) (striped_leaves striper.old) ≡ true }
        ensures columns { AddsRecord (line_node self.now) (striped_paths striper.old) (striped striper.old)
            (striped striper.new) result }
        ensures leaves { striped_leaves striper.new ≡ striped_leaves striper.old }
    {
        match &self.value {
            LineValue::Raw(members) => striper.add_held(RawPart::Group(
                &self.schema.fields,
                members,
            )),
            LineValue::Read(value) => match value.as_object() {
                Some(object) => striper.add_held(Part::Group(&self.schema.fields, object)),
                None => unreachable!(),
            },
        }
    }
}
