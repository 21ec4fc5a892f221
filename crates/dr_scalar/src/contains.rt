//! CONTAINS: whether a text occurs in another.

ghost use Rattle.std.specs.Prelude.{◌≡◌};
ghost use Rattle.dr_meaning.specs.Expression.{occurs_in};

use memchr::memmem;

/// Whether the part occurs in the text.
pub(crate) fn occurs(part: &str, text: &str) -> bool
    ensures { result ≡ occurs_in part.now text.now }
{
    memmem::find(text.as_bytes(), part.as_bytes()).is_some()
}
