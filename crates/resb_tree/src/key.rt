ghost use Rattle.std.specs.Prelude.{◌≡◌, ◌↔◌, [], length, IfOk, IsTrue};

use sqlite_items::Items;
use std::alloc::{AllocError, Global};
use std::marker::Model;
use std::rc::Rc;

/// A key of a table, as bytes. The bytes are shared: a clone has no copy of them.
#[derive(Drop)]
pub struct Key {
    bytes: Rc<Items<u8>>,
}

impl Model for Key {
    ghost use Rattle.std.specs.Prelude.{ℕ, List};

    ghost Value = { List ℕ };

    ghost view = { λ k. k.bytes.value };
}

impl Key {
    /// A key of these bytes.
    pub fn new(alloc: Global, bytes: Items<u8>) -> Result<Key, AllocError>
        ensures { IfOk result (λ key. key ≡ bytes) }
    {
        let bytes = Rc::new(alloc, bytes)?;
        Ok(Key { bytes })
    }

    /// A key of a copy of these bytes.
    pub fn from_slice(alloc: Global, bytes: &[u8]) -> Result<Key, AllocError>
        ensures { IfOk result (λ key. key ≡ bytes.now) }
    {
        Key::new(alloc, Items::from_slice(alloc, bytes)?)
    }

    /// Its bytes.
    pub fn as_slice(&self) -> &[u8]
        ensures { result.now ≡ self.now }
    {
        self.bytes.as_slice()
    }

    /// How many bytes it has.
    pub fn len(&self) -> usize
        ensures { result ≡ length self.now }
    {
        self.bytes.len()
    }

    /// Whether it has no bytes.
    pub fn is_empty(&self) -> bool
        ensures { IsTrue result ↔ (self.now ≡ []) }
    {
        self.bytes.is_empty()
    }
}

/// Shares the bytes; `AllocError` where they are shared as often as can be counted.
impl Clone for Key {
    ghost is_clone = { λ key copy. copy ≡ key };

    fn clone(&self) -> Result<Key, AllocError> {
        let bytes = self.bytes.clone()?;
        Ok(Key { bytes })
    }
}
