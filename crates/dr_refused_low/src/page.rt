//! Bodies of data pages.

ghost use Rattle.std.specs.Prelude.{◌≡◌, ◌+◌, min, true, Some, Err, IfOk, OnErr};
ghost use Rattle.dr_levels.specs.Views.{column_view, column_form};
ghost use Rattle.dr_page.specs.Views.{dictionary_view, is_dictionary_of};
ghost use Rattle.dr_page.specs.PageReading.{left_of, refused_of, reader_form, Lengthens, GivesNext};

use dr_levels::Column;
use dr_page::{Dictionary, PageFault, PageReader};

/// As `PageReader::next`.
pub fn next_of_page(
    reader: &mut PageReader,
    dictionary: &Dictionary,
    bytes: &[u8],
    most: usize,
    out: &mut Column,
) -> Result<usize, PageFault>
    requires form { column_form out.old ≡ reader_form reader.old }
    requires dictionary { is_dictionary_of (reader_form reader.old).kind dictionary.now ≡ true }
    ensures gives { GivesNext (dictionary_view dictionary.now) bytes.now (min most (left_of reader.old))
        (column_view out.old) (column_view out.new) reader.old reader.new result }
    ensures count { IfOk result (λ n. n ≡ min most (left_of reader.old)) }
    ensures left { IfOk result (λ n. n + left_of reader.new ≡ left_of reader.old) }
    ensures longer { IfOk result (λ n. Lengthens (column_view out.old) (column_view out.new) n) }
    ensures stays { OnErr result (column_view out.new ≡ column_view out.old) }
    ensures again { (fault : PageFault) → refused_of reader.old ≡ Some fault → result ≡ Err fault }
    ensures refused { (fault : PageFault) → result ≡ Err fault → refused_of reader.new ≡ Some fault }
    ensures form { column_form out.new ≡ column_form out.old }
    ensures reader { reader_form reader.new ≡ reader_form reader.old }
{
    reader.next(dictionary, bytes, most, out)
}
