//! Reading the words of a command line.

ghost use Rattle.std.specs.Prelude.{◌≡◌, ◌≢◌, IfOk, Some, None, map, string_bytes};
ghost use Rattle.dr_commands.specs.Commands.{command_view};
ghost use Rattle.dr_words.specs.Words as meant;

use crate::commands::{command_of, dremel_command};
use crate::words_fault::{WordsFault, fault_of};
use dr_commands::Command;
use std::alloc::Global;

/// Reads the words of a command line, of which the first is the program's name.
pub fn read_words(alloc: Global, words: &[String]) -> Result<Command, WordsFault>
    ensures values { IfOk result (λ command. meant.asked (map string_bytes words.now) ≡ Some (command_view command)) }
    ensures refused { result ≡ Err WordsFault.Usage → meant.asked (map string_bytes words.now) ≡ None }
    ensures taken { meant.Taken (map string_bytes words.now) → result ≢ Err WordsFault.Usage }
{
    match dremel_command(alloc)?.try_get_matches_from(words) {
        Ok(matches) => command_of(alloc, &matches),
        Err(error) => Err(fault_of(&error)),
    }
}

/// Words ask for something exactly where clap takes them, which is exactly where it finds no fault.
pub fn taken_words_ask()
    ensures asks { meant.TakenAsk }
    ensures faultless { meant.FaultlessAreTaken }
{}
