ghost use Rattle.std.specs.Prelude.{◌≡◌, ◌+◌, ◌<◌, ◌≤◌, ◌++◌, nat_le, length, OnOk, IfOk, IfErr};
ghost use Rattle.resb.specs.Plan.{most_words, Refuses};
ghost use Rattle.resb.specs.Inside.Laying.{leaf_words, leaf_item, LeafFits};
ghost use Rattle.resb_tree.specs.Words.{value_count};
ghost use Rattle.resb_tree.specs.declared.resource.Resource.TheVariants as r;

use crate::packing::{push_bytes, push_text};
use resb_tree::ResbError;

/// An item is its type times 268,435,456, and its value. These are the items with the value 0.
const BYTES: u32 = 268_435_456;

pub const TABLE: u32 = 2 * 268_435_456;

const INTEGER: u32 = 7 * 268_435_456;

pub const ARRAY: u32 = 8 * 268_435_456;

const INTEGERS: u32 = 14 * 268_435_456;

/// The most words of a body: a bundle has at most 1,048,576, and 6 are its header.
pub const MOST_WORDS: usize = 1_048_570;

/// Whether so many words more stay within the limit, behind `base` words and those of `out`.
pub fn has_room(base: usize, out: &Vec<u32>, more: usize) -> bool
    requires { base + length out.now.items ≤ most_words }
    ensures { result ≡ nat_le (base + length out.now.items + more) most_words }
{
    more <= MOST_WORDS - base - out.len()
}

/// Appends the words of a text, and answers its item.
#[tactic(auto, using(crate::proofs::LaidWords::leaves))]
pub fn lay_text(units: &[u16], base: usize, out: &mut Vec<u32>) -> Result<u32, ResbError>
    requires { base + length out.old.items ≤ most_words }
    ensures words { OnOk result (out.new.items ≡ out.old.items
        ++ leaf_words (r.Text units.now) (base + length out.old.items)) }
    ensures item { IfOk result
        (λ v. v ≡ leaf_item (r.Text units.now) (base + length out.old.items)) }
    ensures bound { OnOk result (LeafFits (r.Text units.now) (base + length out.old.items)) }
    ensures err { IfErr result
        (Refuses (LeafFits (r.Text units.now) (base + length out.old.items))) }
{
    let count = units.len();
    if count == 0 {
        return Ok(0);
    }
    if !has_room(base, out, count / 2 + 2) {
        return Err(ResbError::TooLarge);
    }
    let item = (base + out.len()) as u32;
    out.push(count as u32)?;
    push_text(out, units)?;
    Ok(item)
}

/// Appends the words of bytes, and answers their item.
#[tactic(auto, using(crate::proofs::LaidWords::leaves))]
pub fn lay_bytes(bytes: &[u8], base: usize, out: &mut Vec<u32>) -> Result<u32, ResbError>
    requires { base + length out.old.items ≤ most_words }
    ensures words { OnOk result (out.new.items ≡ out.old.items
        ++ leaf_words (r.Bytes bytes.now) (base + length out.old.items)) }
    ensures item { IfOk result
        (λ v. v ≡ leaf_item (r.Bytes bytes.now) (base + length out.old.items)) }
    ensures bound { OnOk result (LeafFits (r.Bytes bytes.now) (base + length out.old.items)) }
    ensures err { IfErr result
        (Refuses (LeafFits (r.Bytes bytes.now) (base + length out.old.items))) }
{
    let count = bytes.len();
    if count == 0 {
        return Ok(BYTES);
    }
    if !has_room(base, out, (count - 1) / 4 + 2) {
        return Err(ResbError::TooLarge);
    }
    let item = BYTES + (base + out.len()) as u32;
    out.push(count as u32)?;
    push_bytes(out, bytes)?;
    Ok(item)
}

/// Appends the words of integers, and answers their item.
#[tactic(auto, using(crate::proofs::LaidWords::leaves))]
pub fn lay_integers(values: &[u32], base: usize, out: &mut Vec<u32>) -> Result<u32, ResbError>
    requires { base + length out.old.items ≤ most_words }
    ensures words { OnOk result (out.new.items ≡ out.old.items
        ++ leaf_words (r.Integers values.now) (base + length out.old.items)) }
    ensures item { IfOk result
        (λ v. v ≡ leaf_item (r.Integers values.now) (base + length out.old.items)) }
    ensures bound { OnOk result (LeafFits (r.Integers values.now) (base + length out.old.items)) }
    ensures err { IfErr result
        (Refuses (LeafFits (r.Integers values.now) (base + length out.old.items))) }
{
    let count = values.len();
    if count == 0 {
        return Ok(INTEGERS);
    }
    if !has_room(base, out, count.saturating_add(1)) {
        return Err(ResbError::TooLarge);
    }
    let item = INTEGERS + (base + out.len()) as u32;
    out.push(count as u32)?;
    out.extend_from_slice(values)?;
    Ok(item)
}

/// The item of an integer, which has no words.
pub fn integer_item(value: u32) -> Result<u32, ResbError>
    ensures item { IfOk result (λ v. v ≡ 1879048192 + value) }
    ensures bound { OnOk result (value < value_count) }
    ensures err { IfErr result (Refuses (value < value_count)) }
{
    if value >= 268_435_456 {
        return Err(ResbError::TooLarge);
    }
    Ok(INTEGER + value)
}
