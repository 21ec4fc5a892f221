//! Why a struct is no metadata.

ghost use Rattle.std.specs.Prelude.{◌≡◌};
ghost use Rattle.dr_meta.specs.declared.fault.MetaFault.TheVariants.{NoMemory as WantOfMemory};

use std::alloc::{AllocError, AllocFailed};

/// Why a struct is no metadata: the first needed field, by its id, that is missing or out of range; a struct's own come
/// before those of the structs inside it.
#[derive(Clone, Copy, PartialEq, Eq)]
pub enum MetaFault {
    NoMemory,
    /// It is not there with its type.
    Missing(u8),
    /// Its number is negative.
    Range(u8),
}

impl From<AllocError> for MetaFault {
    ghost from_gives = { λ _ fault. fault ≡ WantOfMemory };

    fn from(_: AllocError) -> MetaFault {
        MetaFault::NoMemory
    }
}

impl<T: Drop> From<AllocFailed<T>> for MetaFault {
    ghost from_gives = { λ _ fault. fault ≡ WantOfMemory };

    fn from(_: AllocFailed<T>) -> MetaFault {
        MetaFault::NoMemory
    }
}
