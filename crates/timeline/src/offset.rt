use std::marker::Model;

/// Wall time less UTC, in whole seconds: above 0 east of Greenwich. 0 by default.
#[derive(Clone, Copy, PartialEq, Debug, Default)]
pub struct UtcOffset(i32);

impl Model for UtcOffset {
    ghost use Rattle.std.specs.Prelude.{ℤ};

    ghost Value = { ℤ };

    ghost view = { λ a. a.0 };

    ghost inverse = { λ n. record { 0 = n } };
}

impl UtcOffset {
    ghost use Rattle.std.specs.Prelude.{◌≡◌};

    /// The offset of so many seconds.
    pub fn from_seconds(x: i32) -> UtcOffset
        ensures { result ≡ x }
    {
        UtcOffset(x)
    }

    /// Its seconds.
    pub fn seconds(self) -> i32
        ensures { result ≡ self }
    {
        self.0
    }
}

/// An offset, and whether it is one of daylight time.
#[derive(Clone, Copy, PartialEq, Debug, Default)]
pub struct Offset {
    pub offset: UtcOffset,
    pub rule_applies: bool,
}

/// An entry of a timeline: from the second `since` on this offset holds.
#[derive(Clone, Copy, PartialEq, Debug)]
pub struct Transition {
    pub since: i64,
    pub offset: UtcOffset,
    pub rule_applies: bool,
}

impl From<Transition> for Offset {
    ghost use Rattle.std.specs.Prelude.{◌≡◌};
    ghost use Rattle.timeline.specs.Timeline.{offset_of};

    ghost from_gives = { λ t r. r ≡ offset_of t };

    fn from(t: Transition) -> Offset {
        Offset {
            offset: t.offset,
            rule_applies: t.rule_applies,
        }
    }
}

/// The offsets of a wall time; a transition is a second counted from 1970-01-01 00:00:00 UTC.
#[derive(Drop, PartialEq, Debug)]
pub enum PossibleOffset {
    /// One second shows it.
    Single(Offset),
    /// Two seconds show it, one on each side of a transition.
    Ambiguous {
        before: Offset,
        after: Offset,
        transition: i64,
    },
    /// No second shows it: a transition puts the clock forward over it.
    None {
        before: Offset,
        after: Offset,
        transition: i64,
    },
}
