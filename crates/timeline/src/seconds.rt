//! The seconds of a table's transitions. Only `second_at` tells one.
ghost use Rattle.std.specs.Prelude.{◌≡◌, ◌+◌, ◌<◌, length, slice_get, Some};

use std::marker::Model;
use std::sync::ledger::Ledger;
use steps::Steps;

/// The seconds of a table's transitions in one list, with the lengths of its three parts: the first is to lie before the
/// seconds of 32 bits, the third after them, and the second is what is left between.
#[derive(Drop)]
pub struct Seconds {
    list: Vec<i64>,
    early: usize,
    late: usize,
}

impl Model for Seconds {
    ghost use Rattle.timeline.specs.Table.{PlainSeconds};

    ghost Value = { PlainSeconds };

    ghost view = { λ a. record { list = a.list.items; early = a.early; late = a.late } };
}

impl Seconds {
    ghost use Rattle.timeline.specs.Table.{PlainSeconds};

    /// These seconds, the lengths of whose first and third part these are.
    pub fn new(list: Vec<i64>, early: usize, late: usize) -> Seconds
        ensures { result ≡ record { list = list.items; early = early; late = late } }
    {
        Seconds { list, early, late }
    }

    /// How many there are.
    pub fn len(&self) -> usize
        ensures { result ≡ length self.now.list }
    {
        self.list.len()
    }

    /// The length of the first part.
    pub fn early(&self) -> usize
        ensures { result ≡ self.now.early }
    {
        self.early
    }

    /// The length of the third part.
    pub fn late(&self) -> usize
        ensures { result ≡ self.now.late }
    {
        self.late
    }

    /// The nth second, counted from 0. Takes one step.
    pub fn second_at<L: Ledger>(&self, n: usize, steps: &mut Steps<L>) -> i64
        requires { n < length self.now.list }
        ensures value { slice_get self.now.list n ≡ Some result }
        ensures ticks { steps.new ≡ steps.old + 1 }
    {
        steps.tick();
        self.list[n]
    }
}
