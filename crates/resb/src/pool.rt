ghost use Rattle.std.specs.Prelude.{◌≡◌, ℕ, ◌<◌, ◌^◌, List, Some, IfSome};
ghost use Rattle.std.specs.BTreeMap.{get_by};
ghost use Rattle.std.specs.Cmp.Lexicographic.{slice_cmp};
ghost use Rattle.std.specs.Ordering.{nat_cmp};
ghost use Rattle.resb.specs.Pool.{bare, place_of, words_end};
ghost use Rattle.resb.specs.Inside.Pooling.{place_told, pool_end};

use std::collections::BTreeMap;

/// Keys, each once, with the bytes where they begin. The pool begins at byte 32 of the body.
#[derive(Drop)]
pub struct KeyPool<'a> {
    pub keys: Vec<&'a [u8]>,
    pub places: BTreeMap<&'a [u8], usize>,
    /// The byte behind the last key's zero byte.
    pub end: usize,
    ghost told: { (key : List ℕ) → get_by (λ k. slice_cmp nat_cmp key k.now) places
        ≡ place_told (bare keys.items) key },
    ghost ends: { end ≡ pool_end (bare keys.items) },
}

/// So many of the first keys are compared with a key before the map is asked.
const FEW: usize = 8;

/// Where a key begins, if it is one of these, the first of which begins at byte 32.
fn place_among(keys: &[&[u8]], key: &[u8]) -> Option<usize>
    requires { pool_end (bare keys.now) < 2 ^ 64 }
    ensures { IfSome result (λ place. Some place ≡ place_told (bare keys.now) key.now) }
{
    let mut place = 32;
    for other in keys {
        if *other == key {
            return Some(place);
        }
        place += other.len() + 1;
    }
    None
}

impl KeyPool<'_> {
    /// The byte where a key of the pool begins.
    pub fn find(&self, key: &[u8]) -> Option<usize>
        ensures { result ≡ place_told (bare self.now.keys.items) key.now }
    {
        let _end = self.end;
        let keys = self.keys.as_slice();
        let few = &keys[..keys.len().min(FEW)];
        if let Some(place) = place_among(few, key) {
            return Some(place);
        }
        self.places.get(key).copied()
    }

    /// The byte where a key begins, or would begin.
    #[tactic(auto, using(crate::proofs::Pools::placing))]
    pub fn place(&self, key: &[u8]) -> usize
        ensures { result ≡ place_of (bare self.now.keys.items) key.now }
    {
        match self.find(key) {
            Some(place) => place,
            None => self.end,
        }
    }

    /// The body word behind the keys.
    pub fn words_end(&self) -> usize
        ensures { result ≡ words_end (bare self.now.keys.items) }
    {
        8 + (self.end - 29) / 4
    }
}
