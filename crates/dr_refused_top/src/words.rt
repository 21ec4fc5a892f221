//! Words of commands.

ghost use Rattle.std.specs.Prelude.{◌≡◌, ◌≢◌, IfOk, Some, None, map, string_bytes};
ghost use Rattle.dr_commands.specs.Commands.{command_view};
ghost use Rattle.dr_words.specs.Words as meant;

use dr_commands::Command;
use dr_words::{WordsFault, read_words};
use std::alloc::Global;

/// As `read_words`.
pub fn command_read(alloc: Global, words: &[String]) -> Result<Command, WordsFault>
    ensures values { IfOk result (λ command. meant.asked (map string_bytes words.now) ≡ Some (command_view command)) }
    ensures refused { result ≡ Err WordsFault.Usage → meant.asked (map string_bytes words.now) ≡ None }
    ensures taken { meant.Taken (map string_bytes words.now) → result ≢ Err WordsFault.Usage }
{
    read_words(alloc, words)
}
