ghost use Rattle.std.specs.Prelude.{Option, List, ℕ, ◌<◌, ◌≤◌, length, IfOk};
ghost use Rattle.std.specs.Io.{WritesAtMost};
ghost use Rattle.std.specs.Io.KnownBytes.{WriteAppends};
ghost use Rattle.streams.specs.Causes.{HasCause};

use crate::Failed;

/// Where bytes go.
pub trait Sink {
    /// The bytes written, where the sink tells them. A sink that tells them goes on telling them.
    ghost written: { Self → Option (List ℕ) };

    /// How often it has failed: a count that never falls.
    ghost faults: { Self → ℕ };

    /// Appends the first bytes of the piece, and answers how many: at least one for a piece that is not empty.
    ///
    /// `Failed` comes only where the count of faults rose in this call (or stands at the last value of a u64); then no
    /// byte was appended.
    fn write(&mut self, piece: &[u8]) -> Result<usize, Failed>
        ensures bound { WritesAtMost result piece.now }
        ensures some { IfOk result (λ n. 0 < length piece.now → 0 < n) }
        ensures bytes { WriteAppends (written self.old) (written self.new) result piece.now }
        ensures cause { HasCause (faults self.old) (faults self.new) result };
}
