ghost use Rattle.std.specs.Prelude.{◌≡◌, true, [], ◌∷◌, ◌++◌, map, OnOk};
ghost use Rattle.resb_tree.specs.Keys.{stands_in};
ghost use Rattle.resb.specs.Pool.{bare};
ghost use Rattle.resb.specs.Entries.{told_values};
ghost use Rattle.resb.specs.Inside.Pooling.{added, pooled, Fills};
ghost use Rattle.resb.specs.TreeKeys.{keys_met, item_keys, entry_keys, key_pool};

use crate::pool::KeyPool;
use resb_tree::{Key, ResbError, Resource};
use sqlite_items::Items;
use std::alloc::{AllocError, Global};
use std::collections::BTreeMap;

/// Whether a key is the last of those met.
fn is_last(met: &[&[u8]], key: &[u8]) -> bool
    ensures { result ≡ true → stands_in key.now (bare met.now) ≡ true }
{
    match met.last() {
        Some(last) => *last == key,
        None => false,
    }
}

/// Appends a key, except behind the same key: the pool of those met is the same with it.
fn meet<'a>(key: &'a [u8], met: &mut Vec<&'a [u8]>) -> Result<(), AllocError>
    ensures { OnOk result (pooled [] (bare met.new.items)
        ≡ pooled [] (bare met.old.items ++ key.now ∷ [])) }
{
    if is_last(met.as_slice(), key) {
        return Ok(());
    }
    met.push(key)?;
    Ok(())
}

#[cycle(meet)]
fn meet_items<'a>(items: &'a [Resource], met: &mut Vec<&'a [u8]>) -> Result<(), AllocError>
    ensures { OnOk result (pooled [] (bare met.new.items)
        ≡ pooled [] (bare met.old.items ++ item_keys (map keys_met items.now))) }
{
    for item in items {
        meet_keys(item, met)?;
    }
    Ok(())
}

#[cycle(meet)]
fn meet_entries<'a>(
    entries: &'a [(Key, Resource)],
    met: &mut Vec<&'a [u8]>,
) -> Result<(), AllocError>
    ensures { OnOk result (pooled [] (bare met.new.items)
        ≡ pooled [] (bare met.old.items ++ entry_keys (told_values keys_met entries.now))) }
{
    for (key, value) in entries {
        meet(key.as_slice(), met)?;
        meet_keys(value, met)?;
    }
    Ok(())
}

/// Appends the keys of a tree in the order in which a walk meets them, an entry's key before its value; of equal keys one
/// after the other only the first.
#[cycle(meet)]
#[tactic(auto, using(crate::proofs::Folds::meeting))]
fn meet_keys<'a>(tree: &'a Resource, met: &mut Vec<&'a [u8]>) -> Result<(), AllocError>
    ensures { OnOk result (pooled [] (bare met.new.items)
        ≡ pooled [] (bare met.old.items ++ keys_met tree.now)) }
{
    match tree {
        Resource::Text(_) => Ok(()),
        Resource::Bytes(_) => Ok(()),
        Resource::Table(entries) => meet_entries(entries.as_slice(), met),
        Resource::Integer(_) => Ok(()),
        Resource::Array(items) => meet_items(items.as_slice(), met),
        Resource::Integers(_) => Ok(()),
    }
}

/// The pool with a key, where the key's place fits 16 bits.
fn with_key<'a>(mut pool: KeyPool<'a>, key: &'a [u8]) -> Result<KeyPool<'a>, ResbError>
    ensures { Fills (λ (p : KeyPool). bare p.keys.items) result
        (added (bare pool.entry.keys.items) key.now) }
{
    if pool.places.get(key).is_some() {
        return Ok(pool);
    }
    if pool.end > 65_535 {
        return Err(ResbError::TooLarge);
    }
    let KeyPool {
        mut keys,
        mut places,
        end,
    } = pool;
    places.insert(key, end)?;
    keys.push(key)?;
    Ok(KeyPool {
        keys,
        places,
        end: end + key.len() + 1,
    })
}

/// Each key once, in the order in which they are first met.
#[tactic(auto, unfolding(crate::specs::Inside::Pooling::pooled))]
pub fn pool_of<'a>(alloc: Global, met: &[&'a [u8]]) -> Result<KeyPool<'a>, ResbError>
    ensures { Fills (λ (p : KeyPool). bare p.keys.items) result (pooled [] (bare met.now)) }
{
    let mut pool = KeyPool {
        keys: Vec::new(alloc),
        places: BTreeMap::new(alloc),
        end: 32,
    };
    for key in met {
        pool = with_key(pool, *key)?;
    }
    Ok(pool)
}

/// The keys of a tree, each once, in the order in which a walk first meets it.
pub fn key_pool(alloc: Global, tree: &Resource) -> Result<KeyPool<'_>, ResbError>
    ensures { Fills (λ (p : KeyPool). bare p.keys.items) result (pooled [] (keys_met tree.now)) }
{
    let mut met = Vec::new(alloc);
    meet_keys(tree, &mut met)?;
    pool_of(alloc, met.as_slice())
}
