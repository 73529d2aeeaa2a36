ghost use Rattle.std.specs.Prelude.{Option, List, ℕ};
ghost use Rattle.std.specs.Io.{ReadsAtMost};
ghost use Rattle.std.specs.Io.KnownBytes.{ReadConsumes};
ghost use Rattle.streams.specs.Causes.{HasCause};

/// A read or a write that failed: nothing was taken or appended.
#[derive(Clone, Copy, Debug, PartialEq, Eq)]
pub struct Failed;

/// Where bytes come from.
pub trait Source {
    /// The bytes to come, where the source tells them. A source that tells them goes on telling them.
    ghost left: { Self → Option (List ℕ) };

    /// How often it has failed: a count that never falls.
    ghost faults: { Self → ℕ };

    /// Puts the next bytes at the front of the buffer, and answers how many: at most the buffer's length.
    ///
    /// 0 for a buffer that is not empty is the end of the bytes, and comes only there. `Failed` comes only where the
    /// count of faults rose in this call (or stands at the last value of a u64); then no byte was taken.
    fn read(&mut self, buf: &mut [u8]) -> Result<usize, Failed>
        ensures bound { ReadsAtMost result buf.new }
        ensures bytes { ReadConsumes (left self.old) (left self.new) result buf.new }
        ensures cause { HasCause (faults self.old) (faults self.new) result };
}
