ghost use Rattle.std.specs.Prelude.{Vec, ℕ, ◌≡◌, ◌∷◌, [], IfOk, Some};
ghost use Rattle.std.specs.Global.{Global};
ghost use Rattle.resb.specs.Inside.Telling.{Tells, array_of, table_of};
ghost use Rattle.resb.specs.Pool.{bare};
ghost use Rattle.resb.specs.Writing.{writing, Writes};
ghost use Rattle.resb_tree.specs.Header.{tree_of};
ghost use Rattle.resb_tree.specs.Keys.{keys_in};

use crate::draft::Draft;
use crate::key_pool::key_pool;
use crate::measures::has_bad_key;
use resb_tree::{Key, ResbError, Resource};
use sqlite_items::Items;
use std::alloc::{AllocError, Global};

/// The keys of entries.
fn keys_of(alloc: Global, entries: &[(Key, Resource)]) -> Result<Vec<&[u8]>, AllocError>
    ensures { IfOk result (λ keys. bare keys.items ≡ keys_in entries.now) }
{
    let mut keys = Vec::new(alloc);
    for (key, _) in entries {
        keys.push(key.as_slice())?;
    }
    Ok(keys)
}

/// Tells an array to a draft, its items first.
#[cycle(tell)]
fn tell_array(alloc: Global, items: &[Resource], draft: &mut Draft<'_>) -> Result<(), ResbError>
    ensures { Tells draft.old draft.new (array_of items.now ∷ []) result }
{
    for item in items {
        tell(alloc, item, draft)?;
    }
    draft.array(items.len())
}

/// Tells a table to a draft, its values first.
#[cycle(tell)]
fn tell_table(
    alloc: Global,
    entries: &[(Key, Resource)],
    draft: &mut Draft<'_>,
) -> Result<(), ResbError>
    ensures { Tells draft.old draft.new (table_of entries.now ∷ []) result }
{
    for (_, value) in entries {
        tell(alloc, value, draft)?;
    }
    let keys = keys_of(alloc, entries)?;
    draft.table_under(keys.as_slice())
}

/// Tells a tree to a draft, children before their parent.
#[cycle(tell)]
fn tell(alloc: Global, tree: &Resource, draft: &mut Draft<'_>) -> Result<(), ResbError>
    ensures { Tells draft.old draft.new (tree.now ∷ []) result }
{
    match tree {
        Resource::Text(units) => draft.text(units.as_slice()),
        Resource::Bytes(bytes) => draft.bytes(bytes.as_slice()),
        Resource::Table(entries) => tell_table(alloc, entries.as_slice(), draft),
        Resource::Integer(value) => draft.integer(*value),
        Resource::Array(items) => tell_array(alloc, items.as_slice(), draft),
        Resource::Integers(values) => draft.integers(values.as_slice()),
    }
}

/// The words of a bundle (ICU resource bundle, format 2) that `read` reads back to the tree: each key once, then the
/// resources, children before their parent.
///
/// `BadKey` where a key has a byte outside 1 to 127 or stands twice in one table. `TooLarge` where no key is bad and the
/// bundle would have over 1,048,576 words, the tree is deeper than 8, a key begins past byte 65,535 of the body, a table has
/// over 65,535 entries, an integer passes 268,435,455, or the tree weighs over 8 times the bundle's words (1 for each
/// resource, and 1 for each of its units, bytes, integers or key bytes). `Memory` where memory runs out.
pub fn write(alloc: Global, tree: &Resource) -> Result<Vec<u32>, ResbError>
    ensures words { Writes (λ (v : Vec ℕ Global). v.items) result (writing tree.now) }
    ensures denoted { IfOk result (λ (v : Vec ℕ Global). tree_of v.items ≡ Some tree.now) }
{
    if has_bad_key(alloc, tree)? {
        return Err(ResbError::BadKey);
    }
    let pool = key_pool(alloc, tree)?;
    let mut draft = Draft::over(alloc, pool)?;
    tell(alloc, tree, &mut draft)?;
    draft.write()
}
