ghost use Rattle.std.specs.Prelude.{◌≡◌, ◌+◌, ◌*◌, ◌/◌, ◌<◌, ◌≤◌, ◌^◌, ◌==◌, ◌%◌, ℕ, List, length, Some, None, IfOk, IsErrOf, vec_len, nat_lt};
ghost use Rattle.zoneinfo64.specs.Bundle.{zones_of_words};
ghost use Rattle.tell.specs.BundleZones.{most_bundle, words_of, bundle_zones};

use std::alloc::{AllocError, Global};
use zoneinfo64::{BinaryDeserializerError, ZoneInfo64};

/// Why the bytes of a bundle gave no zones.
#[derive(Clone, Copy, Debug, PartialEq, Eq)]
pub enum BundleError {
    Bundle,
    Memory,
}

// The words of the bytes, four bytes a word, the low byte first.
fn words(alloc: Global, bytes: &[u8]) -> Result<Vec<u32>, AllocError>
    ensures { IfOk result (λ words. words.items ≡ words_of bytes.now) }
{
    let mut words = Vec::with_capacity(alloc, bytes.len() / 4)?;
    let mut rest = bytes;
    'packing: while let [a, b, c, d, e, f, g, h, others @ ..] = rest {
        words.push_reserved(u32::from_le_bytes([*a, *b, *c, *d]));
        words.push_reserved(u32::from_le_bytes([*e, *f, *g, *h]));
        rest = others;
    }
    if let [a, b, c, d, ..] = rest {
        words.push_reserved(u32::from_le_bytes([*a, *b, *c, *d]));
    }
    Ok(words)
}

#[tactic(auto, unfolding(crate::specs::BundleZones::bundle_zones, crate::specs::BundleZones::bundle_words, zoneinfo64::specs::Bundle::zones_of_words))]
/// The zones of a bundle of at most 4,194,304 bytes, which are given up once their words are there.
pub fn zones_of_bytes(alloc: Global, bytes: Vec<u8>) -> Result<ZoneInfo64, BundleError>
    requires { vec_len bytes ≤ most_bundle }
    ensures zones { IfOk result (λ zones. bundle_zones bytes.items ≡ Some zones) }
    ensures bundle { IsErrOf result BundleError.Bundle → bundle_zones bytes.items ≡ None }
{
    if bytes.len() % 4 != 0 {
        return Err(BundleError::Bundle);
    }
    let Ok(words) = words(alloc, &bytes) else {
        return Err(BundleError::Memory);
    };
    drop(bytes);
    match ZoneInfo64::try_from_u32s(alloc, &words) {
        Ok(zones) => Ok(zones),
        Err(BinaryDeserializerError::Memory) => Err(BundleError::Memory),
        Err(BinaryDeserializerError::Tree) => Err(BundleError::Bundle),
        Err(BinaryDeserializerError::Rules) => Err(BundleError::Bundle),
    }
}
