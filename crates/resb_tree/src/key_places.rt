//! Keys where they stand in the words of a body, known to end before the keys' end.
ghost use Rattle.std.specs.Prelude.{◌≡◌, ℕ, ◌+◌, ◌-◌, ◌*◌, ◌<◌, ◌≤◌, length, IfOk, map, true};
ghost use Rattle.std.specs.Str.{bytes_eq};
ghost use Rattle.resb_tree.specs.Words.{run, byte_in};
ghost use Rattle.resb_tree.specs.Keys.{distinct, stands_in};
ghost use Rattle.resb_tree.specs.BodyView.{told};
ghost use Rattle.resb_tree.specs.Inside.Forms.{entry_in, EntriesLie};
ghost use Rattle.resb_tree.specs.Inside.KeyPlaces.{key_there, IsKey, HaveKeys, keys_there};

use crate::body::BodyWords;
use crate::forms::TableForm;
use crate::key::Key;
use crate::keys::many_distinct;
use crate::places::entry_at;
use crate::words::{byte_at, bytes_from, four_bytes};
use sqlite_items::Items;
use std::alloc::{AllocError, Global};

/// Up to so many entries, each key is compared with each.
const FEW: usize = 16;

/// Whether the key at a place has these bytes. Of bytes that are known where it is called, as the names of fields are, no
/// loop is left.
#[tactic(auto, using(crate::proofs::KeyPlaces::key_steps))]
#[inline(always)]
pub fn key_is(body: &BodyWords<'_>, place: usize, bytes: &[u8]) -> bool
    requires { IsKey (told body.now) place }
    ensures { result ≡ bytes_eq (key_there (told body.now) place) bytes.now }
{
    let mut left = four_bytes(body.words, place);
    for i in 0..bytes.len() {
        let byte = (left % 256) as u8;
        if byte == 0 || byte != bytes[i] {
            return false;
        }
        left = if i % 4 == 3 {
            four_bytes(body.words, place + i + 1)
        } else {
            left / 256
        };
    }
    left % 256 == 0
}

/// Whether the keys at two places are equal.
#[tactic(auto, using(crate::proofs::KeyPlaces::key_steps))]
fn same_key(body: BodyWords<'_>, one: usize, other: usize) -> bool
    requires one { IsKey (told body) one }
    requires other { IsKey (told body) other }
    ensures { let b = told body.entry in result ≡ bytes_eq (key_there b one) (key_there b other) }
{
    let mut at = one;
    let mut there = other;
    loop {
        let byte = byte_at(body.words, at);
        if byte != byte_at(body.words, there) {
            return false;
        }
        if byte == 0 {
            return true;
        }
        at += 1;
        there += 1;
    }
}

/// How many bytes the key at a place has.
#[tactic(auto, using(crate::proofs::KeyPlaces::key_bytes))]
fn key_len(body: BodyWords<'_>, place: usize) -> usize
    requires { IsKey (told body) place }
    ensures value { let b = told body.entry in
        run (byte_in b.words) place result ≡ key_there b place }
    ensures bound { place + result ≤ 4 * body.entry.keys_end }
{
    let mut at = place;
    while byte_at(body.words, at) != 0 {
        at += 1;
    }
    at - place
}

/// A copy of the bytes of the key at a place.
pub fn key_bytes(alloc: Global, body: BodyWords<'_>, place: usize) -> Result<Items<u8>, AllocError>
    requires { IsKey (told body) place }
    ensures { IfOk result (λ items. items ≡ key_there (told body.entry) place) }
{
    bytes_from(alloc, body.words, place, key_len(body, place))
}

/// Whether the key of an entry is that of a later one.
#[tactic(auto, using(crate::proofs::Runs::run_next, crate::proofs::Runs::run_none))]
fn stands_later(body: BodyWords<'_>, form: TableForm, v: usize, count: usize, k: usize) -> bool
    requires lie { EntriesLie form (told body) v count }
    requires keys { HaveKeys (told body) form v count }
    requires within { k < count }
    ensures { let b = told body.entry in let entry = entry_in form b v count in result ≡
        stands_in (key_there b (entry k).0) (keys_there b (run entry (k + 1) (count - (k + 1)))) }
{
    let (place, _) = entry_at(body, form, v, count, k);
    for other in k + 1..count {
        if same_key(body, place, entry_at(body, form, v, count, other).0) {
            return true;
        }
    }
    false
}

/// Whether no two of a few entries have equal keys.
#[tactic(auto, using(crate::proofs::Runs::run_next, crate::proofs::Runs::run_none))]
fn few_apart(body: BodyWords<'_>, form: TableForm, v: usize, count: usize) -> bool
    requires lie { EntriesLie form (told body) v count }
    requires keys { HaveKeys (told body) form v count }
    ensures { result ≡ distinct (keys_there (told body.entry)
        (run (entry_in form (told body.entry) v count) 0 count)) }
{
    for k in 0..count {
        if stands_later(body, form, v, count, k) {
            return false;
        }
    }
    true
}

/// The same, in the time of a sort.
#[tactic(auto, using(crate::proofs::KeyPlaces::keys_more))]
fn many_apart(
    alloc: Global,
    body: BodyWords<'_>,
    form: TableForm,
    v: usize,
    count: usize,
) -> Result<bool, AllocError>
    requires lie { EntriesLie form (told body) v count }
    requires keys { HaveKeys (told body) form v count }
    ensures { IfOk result (λ answer. answer ≡ distinct (keys_there (told body.entry)
        (run (entry_in form (told body.entry) v count) 0 count))) }
{
    let mut keys = Vec::new(alloc);
    for k in 0..count {
        let (place, _) = entry_at(body, form, v, count, k);
        let bytes = key_bytes(alloc, body, place)?;
        keys.push((Key::new(alloc, bytes)?, ()))?;
    }
    many_distinct(alloc, keys.as_slice())
}

/// Whether no two entries of a table have equal keys; `AllocError` where memory runs out.
pub fn are_apart(
    alloc: Global,
    body: BodyWords<'_>,
    form: TableForm,
    v: usize,
    count: usize,
) -> Result<bool, AllocError>
    requires lie { EntriesLie form (told body) v count }
    requires keys { HaveKeys (told body) form v count }
    ensures { IfOk result (λ answer. answer ≡ distinct (keys_there (told body.entry)
        (run (entry_in form (told body.entry) v count) 0 count))) }
{
    if count <= FEW {
        return Ok(few_apart(body, form, v, count));
    }
    many_apart(alloc, body, form, v, count)
}

/// Whether the entries of two tables name the same places of keys, one after the other.
#[tactic(auto, using(crate::proofs::Runs::run_next, crate::proofs::Runs::run_none))]
pub fn same_places(
    body: BodyWords<'_>,
    count: usize,
    form: TableForm,
    v: usize,
    other_form: TableForm,
    other: usize,
) -> bool
    requires lie { EntriesLie form (told body) v count }
    requires other_lie { EntriesLie other_form (told body) other count }
    ensures { let b = told body.entry in (result ≡ true)
        → keys_there b (run (entry_in form b v count) 0 count)
        ≡ keys_there b (run (entry_in other_form b other count) 0 count) }
{
    for k in 0..count {
        let (place, _) = entry_at(body, form, v, count, k);
        let (known, _) = entry_at(body, other_form, other, count, k);
        if place != known {
            return false;
        }
    }
    true
}
