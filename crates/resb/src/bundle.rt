ghost use Rattle.std.specs.Prelude.{◌≡◌, ◌+◌, ◌*◌, ◌++◌, ◌∷◌, ◌≤◌, [], length, IfOk, OnOk, IfErr};
ghost use Rattle.resb.specs.Pool.{bare};
ghost use Rattle.resb.specs.Plan.{most_words, Refuses};
ghost use Rattle.resb.specs.Inside.Bundles.{bundle_of};
ghost use Rattle.resb.specs.Packing.{pack_bytes, most_unit};
ghost use Rattle.resb.specs.TreeKeys.{pool_bytes};
ghost use Rattle.resb.specs.WrittenFiles.{header};

use crate::packing::push_bytes;
use crate::pool::KeyPool;
use resb_tree::ResbError;
use std::alloc::{AllocError, Global};

/// The header, of 24 bytes.
const HEADER: [u32; 6] = [0x27DA_0018, 0x14, 0x2_0000, 0x4273_6552, 2, 0];

/// The keys of a pool, each with its zero byte.
fn pool_bytes(alloc: Global, keys: &[&[u8]]) -> Result<Vec<u8>, AllocError>
    ensures { IfOk result (λ bytes. bytes.items ≡ pool_bytes (bare keys.now)) }
{
    let mut bytes = Vec::new(alloc);
    for key in keys {
        bytes.extend_from_slice(*key)?;
        bytes.push(0)?;
    }
    Ok(bytes)
}

/// The words of the keys of a pool.
fn key_words(alloc: Global, keys: &[&[u8]]) -> Result<Vec<u32>, AllocError>
    ensures { IfOk result (λ words. words.items ≡ pack_bytes (pool_bytes (bare keys.now))) }
{
    let bytes = pool_bytes(alloc, keys)?;
    let mut words = Vec::new(alloc);
    push_bytes(&mut words, bytes.as_slice())?;
    Ok(words)
}

/// The root item and the index.
fn front_words(root: u32, keys_end: usize, end: usize, most: usize) -> [u32; 8]
    requires keys { keys_end ≤ most_words }
    requires end { end ≤ most_words }
    requires most { most ≤ most_unit }
    ensures { result ≡ root ∷ 7 ∷ keys_end ∷ end ∷ end ∷ most ∷ 0 ∷ keys_end ∷ [] }
{
    let keys_end = keys_end as u32;
    let end = end as u32;
    [root, 7, keys_end, end, end, most as u32, 0, keys_end]
}

/// The words of a bundle: the header, the root item with the index, the keys and the resources.
fn joined(
    alloc: Global,
    front: &[u32],
    keys: &[u32],
    resources: &[u32],
) -> Result<Vec<u32>, AllocError>
    ensures { IfOk result
        (λ words. words.items ≡ header ++ (front.now ++ keys.now ++ resources.now)) }
{
    let mut words = Vec::from_slice(alloc, HEADER.as_slice())?;
    words.extend_from_slice(front)?;
    words.extend_from_slice(keys)?;
    words.extend_from_slice(resources)?;
    Ok(words)
}

/// The words of a bundle of these keys and of resources of so much weight, of which one is the root. They begin at body word
/// `keys_end`.
pub fn bundle_words(
    alloc: Global,
    pool: &KeyPool<'_>,
    keys_end: usize,
    root: u32,
    resources: &[u32],
    weighed: usize,
    most: usize,
) -> Result<Vec<u32>, ResbError>
    requires room { keys_end + length resources.now ≤ most_words }
    requires most { most ≤ most_unit }
    ensures words { IfOk result (λ words. words.items
        ≡ bundle_of (bare pool.now.keys.items) keys_end root resources.now most) }
    ensures bound { OnOk result (weighed ≤ 8 * (6 + (keys_end + length resources.now))) }
    ensures err { IfErr result
        (Refuses (weighed ≤ 8 * (6 + (keys_end + length resources.now)))) }
{
    let end = keys_end + resources.len();
    if weighed > 8 * (6 + end) {
        return Err(ResbError::TooLarge);
    }
    let keys = key_words(alloc, pool.keys.as_slice())?;
    let front = front_words(root, keys_end, end, most);
    Ok(joined(alloc, front.as_slice(), keys.as_slice(), resources)?)
}
