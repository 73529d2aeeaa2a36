ghost use Rattle.std.specs.Prelude.{◌≡◌, ℕ, List, ◌+◌, ◌≤◌, [], ◌∷◌, ◌++◌, map, length, take, drop, OnOk};
ghost use Rattle.resb_tree.specs.Keys.{keys_in};
ghost use Rattle.resb_tree.specs.declared.resource.Resource.{Resource};
ghost use Rattle.resb_tree.specs.declared.resource.Resource.TheVariants as r;
ghost use Rattle.resb.specs.Entries.{values_in};
ghost use Rattle.resb.specs.Packing.{most_unit};
ghost use Rattle.resb.specs.Plan.{most_words};
ghost use Rattle.resb.specs.Inside.Laying.{Lays, Stands};
ghost use Rattle.resb.specs.WrittenFiles.{most_of};

use crate::laying::{ARRAY, TABLE, has_room};
use crate::packing::push_units;
use resb_tree::ResbError;
use std::alloc::{AllocError, Global};

/// The words of resources, and what stands for those whose parent has not been laid yet.
#[derive(Drop)]
pub struct Laying {
    pub words: Vec<u32>,
    /// The items of resources without a parent, the last one on top.
    pub items: Vec<u32>,
    /// The number of entries of the table that was laid last, and the places of its keys.
    pub units: Vec<u16>,
}

impl Laying {
    /// No resources.
    pub fn new(alloc: Global) -> Laying
        ensures words { result.words.items ≡ [] }
        ensures items { result.items.items ≡ [] }
    {
        Laying {
            words: Vec::new(alloc),
            items: Vec::new(alloc),
            units: Vec::new(alloc),
        }
    }
}

/// Moves the words behind the first `kept` of a stack to the end of `out`.
fn unstack(stack: &mut Vec<u32>, kept: usize, out: &mut Vec<u32>) -> Result<(), AllocError>
    requires { kept ≤ length stack.old.items }
    ensures words { OnOk result (out.new.items ≡ out.old.items ++ drop kept stack.old.items) }
    ensures stack { OnOk result (stack.new.items ≡ take kept stack.old.items) }
{
    out.extend_from_slice(&stack.as_slice()[kept..])?;
    stack.truncate(kept);
    Ok(())
}

/// Appends the words of an array behind those of its items, and answers its item. What stands for its items is behind the
/// first `kept`, and is taken away.
pub fn push_array(kept: usize, base: usize, laying: &mut Laying) -> Result<u32, ResbError>
    requires room { base + length laying.old.words.items ≤ most_words }
    requires kept { kept ≤ length laying.old.items.items }
    ensures items { OnOk result (laying.new.items.items ≡ take kept laying.old.items.items) }
    ensures lays { (places : List ℕ → ℕ) (xs : List Resource) (old : List ℕ)
        → Stands xs places base old laying.old.words.items (drop kept laying.old.items.items)
        → Lays (r.Array xs) places base old laying.new.words.items result }
{
    let count = laying.items.len() - kept;
    if count == 0 {
        return Ok(ARRAY);
    }
    if !has_room(base, &laying.words, count.saturating_add(1)) {
        return Err(ResbError::TooLarge);
    }
    let item = ARRAY + (base + laying.words.len()) as u32;
    laying.words.push(count as u32)?;
    unstack(&mut laying.items, kept, &mut laying.words)?;
    Ok(item)
}

/// Appends the words of a table behind those of its values, and answers its item. What stands for its values is behind the
/// first `kept`, and is taken away. The units are the number of entries and the places of their keys.
pub fn push_table(kept: usize, base: usize, laying: &mut Laying) -> Result<u32, ResbError>
    requires room { base + length laying.old.words.items ≤ most_words }
    requires kept { kept ≤ length laying.old.items.items }
    ensures items { OnOk result (laying.new.items.items ≡ take kept laying.old.items.items) }
    ensures lays { (places : List ℕ → ℕ) (es : List (List ℕ × Resource)) (old : List ℕ)
        → Stands (values_in es) places base old laying.old.words.items
        (drop kept laying.old.items.items) → most_of (map places (keys_in es)) ≤ most_unit
        → laying.old.units.items ≡ length es ∷ map places (keys_in es)
        → Lays (r.Table es) places base old laying.new.words.items result }
{
    let count = laying.items.len() - kept;
    if count == 0 {
        return Ok(TABLE);
    }
    if count > 65_535 {
        return Err(ResbError::TooLarge);
    }
    if !has_room(base, &laying.words, (count + 2) / 2 + count) {
        return Err(ResbError::TooLarge);
    }
    let item = TABLE + (base + laying.words.len()) as u32;
    push_units(&mut laying.words, laying.units.as_slice())?;
    unstack(&mut laying.items, kept, &mut laying.words)?;
    Ok(item)
}
