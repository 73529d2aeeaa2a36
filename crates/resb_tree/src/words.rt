ghost use Rattle.std.specs.Prelude.{◌≡◌, ℕ, ◌+◌, ◌*◌, ◌/◌, ◌%◌, ◌<◌, ◌≤◌, ◌++◌, length, slice_index, take, IfOk, vec_len, vec_capacity};
ghost use Rattle.resb_tree.specs.Words.{run, unit_in, byte_in};
ghost use Rattle.resb_tree.specs.Inside.Bytes.{HoldBytes};

use sqlite_items::Items;
use std::alloc::{AllocError, Global};

/// The byte at a place, low bytes of a word first.
pub fn byte_at(words: &[u32], at: usize) -> u8
    requires { at < 4 * length words.now }
    ensures { result ≡ byte_in words.now at }
{
    ((words[at / 4] >> (8 * (at % 4) as u32)) % 256) as u8
}

/// The word at a place, zero behind the last one.
#[tactic(auto, using(std::proofs::lemmas::List::get_or_past))]
fn word_at(words: &[u32], at: usize) -> u32
    ensures { result ≡ slice_index words.now at }
{
    if at < words.len() { words[at] } else { 0 }
}

/// Four bytes from a place on, the one there lowest. Zeros stand for those behind the last word.
#[inline(always)]
pub fn four_bytes(words: &[u32], at: usize) -> u32
    requires { at < 4 * length words.now }
    ensures { HoldBytes words.now at 4 result }
{
    let low = u64::from(words[at / 4]);
    let high = u64::from(word_at(words, at / 4 + 1));
    (((low + high * 4_294_967_296) >> (8 * (at % 4) as u32)) % 4_294_967_296) as u32
}

/// The 16-bit unit at a place, the low unit of a word first.
pub fn unit_at(words: &[u32], at: usize) -> u16
    requires { at < 2 * length words.now }
    ensures { result ≡ unit_in words.now at }
{
    let word = words[at / 2];
    if at % 2 == 0 {
        (word % 65_536) as u16
    } else {
        (word / 65_536) as u16
    }
}

/// So many 16-bit units, from one on.
#[tactic(auto, using(crate::proofs::Runs::two_more))]
pub fn units_from(
    alloc: Global,
    words: &[u32],
    from: usize,
    count: usize,
) -> Result<Items<u16>, AllocError>
    requires { from + count ≤ 2 * length words.now }
    ensures { IfOk result (λ items. items ≡ run (unit_in words.now) from count) }
{
    let mut found = Vec::with_capacity(alloc, count)?;
    let end = from + count;
    let mut at = from;
    while at < end {
        if at % 2 == 0 && end - at >= 2 {
            // a whole word
            let first = at / 2 * 2;
            found.push_reserved(unit_at(words, first));
            found.push_reserved(unit_at(words, first + 1));
            at += 2;
        } else {
            found.push_reserved(unit_at(words, at));
            at += 1;
        }
    }
    Ok(Items::from_vec(found))
}

/// Copies so many 16-bit units, from one on, to the front of a slice: a whole word at a time, but for a unit that stands alone
/// in its word.
pub fn copy_units(words: &[u32], from: usize, count: usize, units: &mut [u16])
    requires places { from + count ≤ 2 * length words.now }
    requires room { count ≤ length units.old }
    ensures { take count units.new ≡ run (unit_in words.now) from count }
{
    let mut at = 0;
    if from % 2 != 0 && count != 0 {
        units[0] = unit_at(words, from);
        at = 1;
    }
    while at + 2 <= count {
        let word = words[(from + at) / 2];
        units[at] = (word % 65_536) as u16;
        units[at + 1] = (word / 65_536) as u16;
        at += 2;
    }
    if at < count {
        units[at] = unit_at(words, from + at);
    }
}

/// Appends the four bytes of a word.
fn push_word(bytes: &mut Vec<u8>, words: &[u32], at: usize)
    requires within { at < length words.now }
    requires room { vec_len bytes.old + 4 ≤ vec_capacity bytes.old }
    ensures items { bytes.new.items ≡ bytes.old.items ++ run (byte_in words.now) (4 * at) 4 }
    ensures len { vec_len bytes.new ≡ vec_len bytes.old + 4 }
    ensures room { vec_capacity bytes.new ≡ vec_capacity bytes.old }
{
    let word = words[at];
    bytes.push_reserved((word % 256) as u8);
    bytes.push_reserved((word / 256 % 256) as u8);
    bytes.push_reserved((word / 65_536 % 256) as u8);
    bytes.push_reserved((word / 16_777_216) as u8);
}

/// So many bytes, from one on.
#[tactic(auto, using(crate::proofs::Runs::four_more))]
pub fn bytes_from(
    alloc: Global,
    words: &[u32],
    from: usize,
    count: usize,
) -> Result<Items<u8>, AllocError>
    requires { from + count ≤ 4 * length words.now }
    ensures { IfOk result (λ items. items ≡ run (byte_in words.now) from count) }
{
    let mut found = Vec::with_capacity(alloc, count)?;
    let end = from + count;
    let mut at = from;
    while at < end {
        if at % 4 == 0 && end - at >= 4 {
            push_word(&mut found, words, at / 4);
            at += 4;
        } else {
            found.push_reserved(byte_at(words, at));
            at += 1;
        }
    }
    Ok(Items::from_vec(found))
}
