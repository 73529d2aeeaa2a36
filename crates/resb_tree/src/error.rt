use std::alloc::{AllocError, AllocFailed};
use std::fmt;
use std::fmt::{Display, Formatter, Write};

/// Why there is no tree, or no words.
#[derive(Clone, Copy, Debug, PartialEq, Eq)]
pub enum ResbError {
    /// Memory ran out.
    Memory,
    /// The words denote no tree.
    NoTree,
    /// A bundle has no room for the tree.
    TooLarge,
    /// A key has a byte outside 1 to 127, or stands twice in one table.
    BadKey,
}

impl From<AllocError> for ResbError {
    ghost use Rattle.std.specs.Prelude.{◌≡◌};
    ghost use Rattle.resb_tree.specs.declared.error.ResbError.TheVariants.{Memory};

    ghost from_gives = { λ _ e. e ≡ Memory };

    fn from(_: AllocError) -> ResbError {
        ResbError::Memory
    }
}

impl<T: Drop> From<AllocFailed<T>> for ResbError {
    ghost use Rattle.std.specs.Prelude.{◌≡◌};
    ghost use Rattle.resb_tree.specs.declared.error.ResbError.TheVariants.{Memory};

    ghost from_gives = { λ _ e. e ≡ Memory };

    fn from(_: AllocFailed<T>) -> ResbError {
        ResbError::Memory
    }
}

impl Display for ResbError {
    ghost use Rattle.std.specs.Prelude.{Some};
    ghost use Rattle.resb_tree.specs.Texts.{error_text};

    ghost output = { λ e. Some (error_text e) };

    fn fmt<W: Write>(&self, f: &mut Formatter<W>) -> fmt::Result {
        f.write_str(match self {
            ResbError::Memory => "memory could not be found",
            ResbError::NoTree => "no resource tree",
            ResbError::TooLarge => "tree too large",
            ResbError::BadKey => "bad key",
        })
    }
}
