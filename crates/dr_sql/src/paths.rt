//! Reading paths.

ghost use Rattle.std.specs.Prelude.{Vec};
ghost use Rattle.dr_meaning.specs.Parse as parse;
ghost use Rattle.dr_sql.specs.Reads.{unread, Reads};
ghost use Rattle.dr_sql.specs.Views.{path_view, names_view};

use crate::cursor::Cursor;
use crate::expression::Path;
use crate::fault::QueryFault;
use crate::word::Sign;
use std::alloc::Global;

/// name {"." name}
fn names<'a>(alloc: Global, cursor: &mut Cursor<'_, 'a>) -> Result<Vec<&'a str>, QueryFault>
    ensures { Reads names_view (parse.names (unread cursor.old)) (unread cursor.new) result }
{
    let mut names = Vec::new(alloc);
    names.push(cursor.name()?)?;
    'names: for _ in 0..cursor.left() {
        if !cursor.next_is_sign(Sign::Dot) {
            break;
        }
        cursor.advance();
        names.push(cursor.name()?)?;
    }
    Ok(names)
}

/// path = name {"." name}
pub fn path<'a>(alloc: Global, cursor: &mut Cursor<'_, 'a>) -> Result<Path<'a>, QueryFault>
    ensures { Reads path_view (parse.path_names (unread cursor.old)) (unread cursor.new) result }
{
    let place = cursor.place();
    let names = names(alloc, cursor)?;
    Ok(Path { place, names })
}
