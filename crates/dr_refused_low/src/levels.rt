//! Levels.

ghost use Rattle.std.specs.Prelude.{◌≡◌};
ghost use Rattle.dr_nested.specs.PathView.{path_view};
ghost use Rattle.dr_meaning.specs.Path as path_meaning;

use dr_levels::common;
use dr_nested::Path;

/// As `common`.
pub fn common_level(one: &Path, other: &Path) -> u32
    ensures { result ≡ path_meaning.common (path_view one.now).path (path_view other.now).path }
{
    common(one, other)
}
