//! Names.

ghost use Rattle.std.specs.Prelude.{◌≡◌, ◌++◌, true, bytes_eq, if◌then◌else◌, string_bytes, OnOk};
ghost use Rattle.std.specs.List.{list_all};
ghost use Rattle.std.specs.Str.{str_to_ascii_uppercase};
ghost use Rattle.dr_partials.specs.RewritingText as meant;
ghost use Rattle.dr_sql.specs.Lexing.{is_capital};

use std::alloc::AllocError;

/// Whether a name is these capitals, without regard to case.
fn spells(name: &str, capitals: &str) -> bool
    requires { list_all is_capital capitals.now ≡ true }
    ensures { result ≡ bytes_eq (str_to_ascii_uppercase name.now) capitals.now }
{
    name.eq_ignore_ascii_case(capitals)
}

/// Whether a name is a reserved word.
fn is_reserved(name: &str) -> bool
    ensures { meant.name_text name.now ≡ (if result then meant.in_quotes name.now else name.now) }
{
    spells(name, "SELECT")
        || spells(name, "FROM")
        || spells(name, "WHERE")
        || spells(name, "GROUP")
        || spells(name, "BY")
        || spells(name, "AS")
        || spells(name, "WITHIN")
        || spells(name, "RECORD")
        || spells(name, "AND")
        || spells(name, "OR")
        || spells(name, "NOT")
        || spells(name, "LIKE")
        || spells(name, "CONTAINS")
        || spells(name, "IS")
        || spells(name, "NULL")
        || spells(name, "TRUE")
        || spells(name, "FALSE")
        || spells(name, "COUNT")
        || spells(name, "SUM")
        || spells(name, "MIN")
        || spells(name, "MAX")
        || spells(name, "DISTINCT")
        || spells(name, "ORDER")
        || spells(name, "LIMIT")
        || spells(name, "ASC")
        || spells(name, "DESC")
}

/// Appends a name in double quotes.
pub(crate) fn push_quoted_name(name: &str, out: &mut String) -> Result<(), AllocError>
    ensures { OnOk result (string_bytes out.new ≡ string_bytes out.old ++ meant.in_quotes name.now) }
{
    out.push_str("\"")?;
    out.push_str(name)?;
    out.push_str("\"")
}

/// Appends a name, in double quotes where it is a reserved word.
pub(crate) fn push_name(name: &str, out: &mut String) -> Result<(), AllocError>
    ensures { OnOk result (string_bytes out.new ≡ string_bytes out.old ++ meant.name_text name.now) }
{
    if is_reserved(name) {
        push_quoted_name(name, out)
    } else {
        out.push_str(name)
    }
}
