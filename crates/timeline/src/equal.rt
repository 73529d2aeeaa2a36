//! Whether two zones have the same data.
ghost use Rattle.std.specs.Prelude.{◌≡◌, ◌<◌, option_map};
ghost use Rattle.std.specs.Ordering.{int_eq};
ghost use Rattle.std.specs.Option.{option_eq};
ghost use Rattle.std.specs.Cmp.Lexicographic.{pointwise};
ghost use Rattle.std.specs.Borrow.{Bor};
ghost use Rattle.timeline.specs.Zone.{PlainRule};
ghost use Rattle.timeline.specs.Equal.{seconds_of, same_pair, same_rule, same_zone};

use crate::data::ZoneData;
use crate::dates::ZoneRule;
use std::marker::Brand;
use std::sync::ledger::{Blank, Ledger};
use steps::Steps;

/// Whether two tables have the same seconds; the steps go to the caller's ledger.
fn same_seconds_by<L: Ledger>(a: &ZoneData, b: &ZoneData, blank: Blank) -> bool
    requires name { blank.name ≡ L.name }
    requires parts { blank.parts ≡ L.parts }
    requires some { 0 < L.parts }
    ensures { result ≡ pointwise int_eq (seconds_of a.now) (seconds_of b.now) }
{
    let mut steps = Steps::<L>::new(blank);
    if a.len() != b.len() {
        return false;
    }
    for n in 0..a.len() {
        if a.second_at(n, &mut steps) != b.second_at(n, &mut steps) {
            return false;
        }
    }
    true
}

/// The same, where no step is counted.
fn same_seconds(a: &ZoneData, b: &ZoneData) -> bool
    ensures { result ≡ pointwise int_eq (seconds_of a.now) (seconds_of b.now) }
{
    same_seconds_by::<Brand>(a, b, Blank::new(1))
}

/// Whether two lists of pairs are equal.
fn same_pairs(a: &[(i32, i32)], b: &[(i32, i32)]) -> bool
    ensures { result ≡ pointwise same_pair a.now b.now }
{
    a == b
}

/// Whether both zones have no rule, or the same.
fn same_rules(a: Option<&ZoneRule>, b: Option<&ZoneRule>) -> bool
    ensures { result
        ≡ option_eq same_rule (option_map (λ (r : Bor PlainRule). r.now) a.entry)
        (option_map (λ (r : Bor PlainRule). r.now) b.entry) }
{
    match (a, b) {
        (None, None) => true,
        (Some(a), Some(b)) => a.is_same(b),
        _ => false,
    }
}

/// Whether two zones have the same data.
pub fn is_same(a: &ZoneData, b: &ZoneData) -> bool
    ensures { result ≡ same_zone a.now b.now }
{
    same_pairs(a.type_offsets(), b.type_offsets())
        && same_seconds(a, b)
        && a.early() == b.early()
        && a.late() == b.late()
        && a.type_map() == b.type_map()
        && a.links() == b.links()
        && same_rules(a.rule(), b.rule())
}
