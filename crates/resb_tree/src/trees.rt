//! The tree that stands in the words of a body, copied out of them.
ghost use Rattle.std.specs.Prelude.{◌≡◌, ◌+◌, ◌<◌, IfOk, None};
ghost use Rattle.resb_tree.specs.Contents.{items_in, entries_in};
ghost use Rattle.resb_tree.specs.declared.resource.Resource.TheVariants as r;
ghost use Rattle.resb_tree.specs.BodyView.{told};
ghost use Rattle.resb_tree.specs.Inside.Forms.{items_end};
ghost use Rattle.resb_tree.specs.Inside.Parts.{items_count, entries_end, entries_count};
ghost use Rattle.resb_tree.specs.Inside.Places.{tree_there, IsTree, items_there, AreItems, entries_there, AreEntries};

use crate::body::BodyWords;
use crate::checking::STEP;
use crate::counts::{entries_count, item_behind, items_count};
use crate::forms::{ArrayForm, TableForm, array_form, table_form};
use crate::in_place::ResourceRef;
use crate::key::Key;
use crate::key_places::key_bytes;
use crate::places::entry_at;
use crate::resource::Resource;
use sqlite_items::Items;
use std::alloc::{AllocError, Global};

/// A text, bytes, numbers or one number.
#[tactic(auto, using(crate::proofs::LeafParts::integer_left))]
fn leaf_of(alloc: Global, from: &ResourceRef<'_>) -> Result<Resource, AllocError>
    requires items { items_in from.now ≡ None }
    requires entries { entries_in from.now ≡ None }
    ensures { IfOk result (λ tree. tree ≡ from.now) }
{
    if let Some(text) = from.text() {
        return Ok(Resource::Text(text.to_items(alloc)?));
    }
    if let Some(bytes) = from.bytes() {
        return Ok(Resource::Bytes(bytes.to_items(alloc)?));
    }
    if let Some(values) = from.integers() {
        return Ok(Resource::Integers(Items::from_slice(alloc, values)?));
    }
    Ok(Resource::Integer(from.item % STEP))
}

/// The array at `v`.
#[cycle(copy)]
#[tactic(auto, using(crate::proofs::Runs::run_push))]
fn array_of(
    alloc: Global,
    body: &BodyWords<'_>,
    form: ArrayForm,
    levels: u8,
    v: usize,
) -> Result<Resource, AllocError>
    requires low { v < items_end form (told body.now) }
    requires are { let b = told body.now in AreItems b form levels (v + 1) (items_count form b v) }
    ensures { let b = told body.now in let count = items_count form b v in
        IfOk result (λ tree. tree ≡ r.Array (items_there b form levels (v + 1) count)) }
{
    let count = items_count(body, form, v);
    let mut items = Items::from_vec(Vec::with_capacity(alloc, count)?);
    for k in 0..count {
        let item = item_behind(body, form, v + 1, k);
        let tree = tree_of(alloc, body, levels, item)?;
        items.push(tree)?;
    }
    Ok(Resource::Array(items))
}

/// The table at `v`.
#[cycle(copy)]
#[tactic(auto, using(crate::proofs::Runs::run_push))]
fn table_of(
    alloc: Global,
    body: &BodyWords<'_>,
    form: TableForm,
    levels: u8,
    v: usize,
) -> Result<Resource, AllocError>
    requires low { v < entries_end form (told body.now) }
    requires are { let b = told body.now in AreEntries b form levels v (entries_count form b v) }
    ensures { let b = told body.now in let count = entries_count form b v in
        IfOk result (λ tree. tree ≡ r.Table (entries_there b form levels v count)) }
{
    let count = entries_count(body, form, v);
    let mut entries = Items::from_vec(Vec::with_capacity(alloc, count)?);
    for k in 0..count {
        let (place, item) = entry_at(*body, form, v, count, k);
        let bytes = key_bytes(alloc, *body, place)?;
        let key = Key::new(alloc, bytes)?;
        let tree = tree_of(alloc, body, levels, item)?;
        entries.push((key, tree))?;
    }
    Ok(Resource::Table(entries))
}

/// The tree of an item with so many levels.
#[cycle(copy)]
#[tactic(auto, using(crate::proofs::Parts::seen_items, crate::proofs::Parts::seen_entries))]
pub fn tree_of(
    alloc: Global,
    body: &BodyWords<'_>,
    levels: u8,
    item: u32,
) -> Result<Resource, AllocError>
    requires { IsTree (told body.now) levels item }
    ensures { IfOk result (λ tree. tree ≡ tree_there (told body.now) levels item) }
{
    let v = (item % STEP) as usize;
    if let Some(form) = table_form(item / STEP) {
        return table_of(alloc, body, form, levels - 1, v);
    }
    if let Some(form) = array_form(item / STEP) {
        return array_of(alloc, body, form, levels - 1, v);
    }
    let body = &*body;
    leaf_of(alloc, &ResourceRef { body, item, levels })
}
