//! Why words ask for nothing.

ghost use Rattle.std.specs.Prelude.{◌≡◌, ◌≢◌};
ghost use Rattle.clap.specs.Words.{kind_of};
ghost use Rattle.dr_words.specs.declared.words_fault.WordsFault.TheVariants.{NoMemory};

use clap::error::ErrorKind;
use std::alloc::AllocError;

/// Why words ask for nothing: clap refuses them, as it refuses words that ask for help; or want of memory.
#[derive(Clone, Copy, PartialEq, Eq)]
pub enum WordsFault {
    Usage,
    NoMemory,
}

impl From<AllocError> for WordsFault {
    ghost from_gives = { λ _ fault. fault ≡ NoMemory };

    fn from(_error: AllocError) -> WordsFault {
        WordsFault::NoMemory
    }
}

/// Why clap gave no matches.
pub fn fault_of(error: &clap::Error) -> WordsFault
    ensures { (result ≡ WordsFault.Usage) → (kind_of error.now ≢ ErrorKind.OutOfMemory) }
{
    match error.kind() {
        ErrorKind::OutOfMemory => WordsFault::NoMemory,
        _ => WordsFault::Usage,
    }
}
