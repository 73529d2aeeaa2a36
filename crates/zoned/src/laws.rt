//! What placing keeps, for any zone, and how days compare.
ghost use Rattle.std.specs.Prelude.{◌≡◌, ◌↔◌, ℤ, IsTrue, fold};
ghost use Rattle.std.specs.Hash.DefaultHasher as sip;
ghost use Rattle.std.specs.Ordering.{int_cmp};
ghost use Rattle.zoned.specs.Days.{day_number};
ghost use Rattle.zoned.specs.Placing.{IsPlaced};

use crate::date::Date;
use crate::offset::TimeZone;
use std::cmp::Ordering;
use std::hash::{DefaultHasher, Hash, Hasher};

/// No wall second is placed at two seconds.
pub fn placed_once()
    ensures { (off : ℤ → ℤ) (w s t : ℤ) → IsPlaced off w s → IsPlaced off w t → s ≡ t }
{}

/// Days with offsets are equal exactly where their days are, whatever the offsets.
pub fn days_are_equal<Tz: TimeZone>(a: &Date<Tz>, b: &Date<Tz>) -> bool
    ensures { IsTrue result ↔ (day_number a.now ≡ day_number b.now) }
{
    *a == *b
}

/// Days with offsets are ordered as their days are, whatever the offsets.
pub fn days_are_ordered<Tz: TimeZone>(a: &Date<Tz>, b: &Date<Tz>) -> Ordering
    ensures { result ≡ int_cmp (day_number a.now) (day_number b.now) }
{
    a.cmp(b)
}

/// Days with offsets have one hash where their days are the same, whatever the offsets.
pub fn days_hash_alike<Tz: TimeZone>(a: &Date<Tz>, b: &Date<Tz>) -> bool
    ensures { day_number a.now ≡ day_number b.now → IsTrue result }
{
    hash_of(a) == hash_of(b)
}

// The hash of a value by std's hasher.
fn hash_of<T: Hash>(value: &T) -> u64
    ensures { result ≡ sip.finish (fold sip.write sip.initial (T.hash_input value.now)) }
{
    let mut state = DefaultHasher::new();
    value.hash(&mut state);
    state.finish()
}
