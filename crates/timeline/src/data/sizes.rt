//! Whether a zone's offsets are less than a day.
ghost use Rattle.std.specs.Prelude.{◌≡◌, ◌↔◌, IsTrue, All, ℤ, ◌+ℤ◌};
ghost use Rattle.timeline.specs.TableLaws.{IsSmall};

use crate::data::ZoneData;

/// The offset of a pair, standard offset and extra.
fn sum_of_pair(pair: (i32, i32)) -> i64
    ensures { result ≡ pair.0 +ℤ pair.1 }
{
    let (standard, extra) = pair;
    standard as i64 + extra as i64
}

fn is_small(offset: i64) -> bool
    ensures { IsTrue result ↔ IsSmall offset }
{
    -86_400 < offset && offset < 86_400
}

/// Whether the offset of a pair is less than a day to either side.
fn is_small_pair(pair: (i32, i32)) -> bool
    ensures { IsTrue result ↔ IsSmall (pair.0 +ℤ pair.1) }
{
    is_small(sum_of_pair(pair))
}

/// Whether the offset of each pair is.
fn are_small_pairs(pairs: &[(i32, i32)]) -> bool
    ensures { IsTrue result ↔ All (λ (p : ℤ × ℤ). IsSmall (p.0 +ℤ p.1)) pairs.now }
{
    for pair in pairs {
        if !is_small_pair(*pair) {
            return false;
        }
    }
    true
}

impl ZoneData {
    ghost use Rattle.std.specs.Prelude.{IsTrue};
    ghost use Rattle.timeline.specs.Inside.Apart.{AreSmall};

    /// Whether the offset of each pair is less than a day, and so the initial one and all of the table.
    pub(crate) fn has_small_offsets(&self) -> bool
        ensures { IsTrue result → AreSmall self.now }
    {
        are_small_pairs(self.type_offsets.as_slice())
    }
}
