ghost use Rattle.std.specs.Prelude.{◌≡◌, ℕ, ◌+◌, ◌-◌, ◌*◌, ◌<◌, ◌≤◌, length, IfOk};
ghost use Rattle.resb_tree.specs.Words.{byte_in};
ghost use Rattle.resb_tree.specs.Keys.{stands_in, distinct, keys_in};
ghost use Rattle.resb_tree.specs.BodyView.{told};
ghost use Rattle.resb_tree.specs.Reading.{Gives};
ghost use Rattle.resb_tree.specs.Inside.Spans.{key_stop};

use crate::body::BodyWords;
use crate::error::ResbError;
use crate::key::Key;
use crate::resource::Resource;
use crate::words::byte_at;
use std::alloc::{AllocError, Global};
use std::collections::BTreeSet;

/// Up to so many entries, each key is compared with each.
const FEW: usize = 16;

/// The place of the zero byte that ends the key at a place.
#[tactic(auto, using(crate::proofs::Scans::stops), unfolding(crate::specs::Inside::Spans::key_stop))]
pub fn key_stop(body: BodyWords<'_>, place: usize) -> Result<usize, ResbError>
    ensures value { Gives (λ x. x) result
        (key_stop (byte_in body.entry.words.now) place (4 * body.entry.keys_end - place)) }
    ensures low { IfOk result (λ stop. place ≤ stop) }
    ensures high { IfOk result (λ stop. stop < 4 * body.entry.keys_end) }
{
    for at in place..4 * body.keys_end {
        let byte = byte_at(body.words, at);
        if byte == 0 {
            return Ok(at);
        }
        if byte >= 128 {
            return Err(ResbError::NoTree);
        }
    }
    Err(ResbError::NoTree)
}

/// Whether a key is that of one of the entries.
fn stands_in(key: &[u8], entries: &[(Key, Resource)]) -> bool
    ensures { result ≡ stands_in key.now (keys_in entries.now) }
{
    for (name, _) in entries {
        if key == name.as_slice() {
            return true;
        }
    }
    false
}

/// Whether no two of a few entries have equal keys.
fn few_distinct(entries: &[(Key, Resource)]) -> bool
    ensures { result ≡ distinct (keys_in entries.now) }
{
    for at in 0..entries.len() {
        if stands_in(entries[at].0.as_slice(), &entries[at + 1..]) {
            return false;
        }
    }
    true
}

/// The same, in the time of a sort.
pub fn many_distinct<T>(alloc: Global, entries: &[(Key, T)]) -> Result<bool, AllocError>
    ensures { IfOk result (λ answer. answer ≡ distinct (keys_in entries.now)) }
{
    let mut later = BTreeSet::new(alloc);
    let mut at = entries.len();
    while at > 0 {
        at -= 1;
        if !later.insert(entries[at].0.as_slice())? {
            return Ok(false);
        }
    }
    Ok(true)
}

/// Whether no two entries have equal keys; `AllocError` where memory runs out.
pub fn are_distinct(alloc: Global, entries: &[(Key, Resource)]) -> Result<bool, AllocError>
    ensures { IfOk result (λ answer. answer ≡ distinct (keys_in entries.now)) }
{
    if entries.len() <= FEW {
        return Ok(few_distinct(entries));
    }
    many_distinct(alloc, entries)
}
