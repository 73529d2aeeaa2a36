use std::alloc::{AllocError, AllocFailed};
use std::fmt;
use std::fmt::{Formatter, Write};

/// Why the words of a bundle were refused.
#[derive(Clone, Copy, Debug, PartialEq, Eq)]
pub enum BinaryDeserializerError {
    /// Memory could not be found.
    Memory,
    /// The words denote no resource tree.
    Tree,
    /// The tree breaks a rule of zone data.
    Rules,
}

impl From<AllocError> for BinaryDeserializerError {
    ghost use Rattle.std.specs.Prelude.{◌≡◌};
    ghost use Rattle.zoneinfo64.specs.declared.error.BinaryDeserializerError.TheVariants.{Memory};

    ghost from_gives = { λ _ e. e ≡ Memory };

    fn from(_: AllocError) -> BinaryDeserializerError {
        BinaryDeserializerError::Memory
    }
}

impl<T: Drop> From<AllocFailed<T>> for BinaryDeserializerError {
    ghost use Rattle.std.specs.Prelude.{◌≡◌};
    ghost use Rattle.zoneinfo64.specs.declared.error.BinaryDeserializerError.TheVariants.{Memory};

    ghost from_gives = { λ _ e. e ≡ Memory };

    fn from(_: AllocFailed<T>) -> BinaryDeserializerError {
        BinaryDeserializerError::Memory
    }
}

impl fmt::Display for BinaryDeserializerError {
    ghost use Rattle.std.specs.Prelude.{Some};
    ghost use Rattle.zoneinfo64.specs.Texts.{error_text};

    ghost output = { λ e. Some (error_text e) };

    fn fmt<W: Write>(&self, f: &mut Formatter<W>) -> fmt::Result {
        match self {
            BinaryDeserializerError::Memory => write!(f, "memory could not be found"),
            BinaryDeserializerError::Tree => write!(f, "no resource tree"),
            BinaryDeserializerError::Rules => write!(f, "zone data rule broken"),
        }
    }
}
