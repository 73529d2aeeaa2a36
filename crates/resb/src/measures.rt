ghost use Rattle.std.specs.Prelude.{◌≡◌, IfOk};
ghost use Rattle.std.specs.List.{list_any};
ghost use Rattle.resb_tree.specs.Keys.{keys_in};
ghost use Rattle.resb.specs.Entries.{values_in};
ghost use Rattle.resb.specs.BadKeys.{is_key, all_keys, has_bad_key};

use resb_tree::{Key, Resource, are_distinct};
use sqlite_items::Items;
use std::alloc::{AllocError, Global};

/// Whether each byte is 1 to 127.
pub fn is_key(bytes: &[u8]) -> bool
    ensures { result ≡ is_key bytes.now }
{
    for byte in bytes {
        if *byte == 0 || *byte >= 128 {
            return false;
        }
    }
    true
}

/// Whether each byte of each key is 1 to 127.
fn all_keys(entries: &[(Key, Resource)]) -> bool
    ensures { result ≡ all_keys (keys_in entries.now) }
{
    for (key, _) in entries {
        if !is_key(key.as_slice()) {
            return false;
        }
    }
    true
}

#[cycle(bad)]
fn bad_key_in_items(alloc: Global, items: &[Resource]) -> Result<bool, AllocError>
    ensures { IfOk result (λ answer. answer ≡ list_any has_bad_key items.now) }
{
    for item in items {
        if has_bad_key(alloc, item)? {
            return Ok(true);
        }
    }
    Ok(false)
}

#[cycle(bad)]
fn bad_key_in_values(alloc: Global, entries: &[(Key, Resource)]) -> Result<bool, AllocError>
    ensures { IfOk result (λ answer. answer ≡ list_any has_bad_key (values_in entries.now)) }
{
    for (_, value) in entries {
        if has_bad_key(alloc, value)? {
            return Ok(true);
        }
    }
    Ok(false)
}

/// Whether a key has a byte outside 1 to 127, or stands twice in one table.
#[cycle(bad)]
#[tactic(auto, using(crate::proofs::Folds::layers), unfolding(crate::specs::BadKeys::has_bad_key))]
pub fn has_bad_key(alloc: Global, tree: &Resource) -> Result<bool, AllocError>
    ensures { IfOk result (λ answer. answer ≡ has_bad_key tree.now) }
{
    match tree {
        Resource::Text(_) => Ok(false),
        Resource::Bytes(_) => Ok(false),
        Resource::Table(entries) => {
            if !all_keys(entries.as_slice()) || !are_distinct(alloc, entries.as_slice())? {
                return Ok(true);
            }
            bad_key_in_values(alloc, entries.as_slice())
        }
        Resource::Integer(_) => Ok(false),
        Resource::Array(items) => bad_key_in_items(alloc, items.as_slice()),
        Resource::Integers(_) => Ok(false),
    }
}
