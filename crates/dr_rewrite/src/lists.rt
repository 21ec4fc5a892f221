//! Texts in a list.

ghost use Rattle.std.specs.Prelude.{◌≡◌, ◌++◌, map, string_bytes, OnOk};
ghost use Rattle.dr_partials.specs.RewritingText as meant;
ghost use Rattle.dr_rewrite.specs.Lists.{further_commas};

use std::alloc::AllocError;

/// Appends texts with commas between.
pub(crate) fn push_listed(texts: &[String], out: &mut String) -> Result<(), AllocError>
    ensures { OnOk result (string_bytes out.new ≡ string_bytes out.old ++ meant.commas (map string_bytes texts.now)) }
{
    match texts.split_first() {
        None => Ok(()),
        Some((first, further)) => {
            out.push_str(first.as_str())?;
            push_further(further, out)
        }
    }
}

/// Appends texts with a comma before each.
fn push_further(texts: &[String], out: &mut String) -> Result<(), AllocError>
    ensures { OnOk result (string_bytes out.new ≡ string_bytes out.old ++ further_commas (map string_bytes texts.now)) }
{
    'texts: for text in texts {
        out.push_str(", ")?;
        out.push_str(text.as_str())?;
    }
    Ok(())
}
