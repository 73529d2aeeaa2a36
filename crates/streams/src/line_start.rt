ghost use Rattle.std.specs.Prelude.{◌≡◌, ◌≤◌, ◌==◌, ◌++◌, [], ℕ, List, length, take, vec_len, OnOk};

use std::alloc::{AllocError, Global};
use std::marker::Model;

// One byte more than the longest line that is not bad.
const MOST_KEPT: usize = 1025;

/// The first bytes of a line that has begun: at most 1,025 of them.
#[derive(Drop)]
pub struct LineStart {
    bytes: Vec<u8>,
}

impl Model for LineStart {
    ghost Value = { List ℕ };

    ghost view = { λ s. s.bytes.items };

    ghost invariant = { λ s. vec_len s.bytes ≤ 1025 };
}

impl LineStart {
    pub fn new(alloc: Global) -> LineStart
        ensures { result ≡ [] }
    {
        LineStart {
            bytes: Vec::new(alloc),
        }
    }

    pub fn is_empty(&self) -> bool
        ensures { result ≡ (length self.now == 0) }
    {
        self.bytes.is_empty()
    }

    pub fn bytes(&self) -> &[u8]
        ensures { result.now ≡ self.now }
    {
        &self.bytes
    }

    /// Takes further bytes of the line, as far as they are kept.
    pub fn keep(&mut self, bytes: &[u8]) -> Result<(), AllocError>
        ensures { OnOk result (self.new ≡ take 1025 (self.old ++ bytes.now)) }
    {
        let room = MOST_KEPT - self.bytes.len();
        self.bytes
            .extend_from_slice(&bytes[..room.min(bytes.len())])?;
        Ok(())
    }

    /// The line has ended.
    pub fn clear(&mut self)
        ensures { self.new ≡ [] }
    {
        self.bytes.clear();
    }
}
