ghost use Rattle.std.specs.Prelude.{◌≡◌};
ghost use Rattle.timeline.specs.Fault.{fault_number};
ghost use Rattle.timeline.specs.Inside.LeastFaults.{least_of};

/// The law that a zone breaks, the least of them by its number.
#[derive(Clone, Copy, PartialEq, Eq, Debug)]
pub enum ZoneFault {
    /// 1: a second of the first part of the table is not below those of 32 bits, or one of the third part not above them.
    Parts,
    /// 2: the seconds of the table do not rise.
    Order,
    /// 3: an offset is a day or more.
    Size,
    /// 4: of two neighbours one has a wall past the other's second.
    Near,
    /// 5: of two neighbours the first has a wall past one of the second.
    Walls,
    /// 6: the table does not end before the rule's first year.
    Seam,
    /// 7: what holds after the table is not what the rule's years begin with.
    Before,
    /// 8: a transition of a rule's year, or one of its walls, lies outside the year.
    Year,
}

impl ZoneFault {
    ghost use Rattle.std.specs.Prelude.{◌≡◌};
    ghost use Rattle.timeline.specs.Fault.{fault_number};

    /// The number of the law, from 1 to 8.
    pub fn number(self) -> u8
        ensures { result ≡ fault_number self }
    {
        match self {
            ZoneFault::Parts => 1,
            ZoneFault::Order => 2,
            ZoneFault::Size => 3,
            ZoneFault::Near => 4,
            ZoneFault::Walls => 5,
            ZoneFault::Seam => 6,
            ZoneFault::Before => 7,
            ZoneFault::Year => 8,
        }
    }
}

/// The one of the lesser number, where there is any.
pub fn least_of(
    first: Result<(), ZoneFault>,
    second: Result<(), ZoneFault>,
) -> Result<(), ZoneFault>
    ensures { result ≡ least_of first second }
{
    // Most entries of a table break no law, so the second is looked at first.
    let Err(other) = second else {
        return first;
    };
    let Err(fault) = first else {
        return Err(other);
    };
    if other.number() < fault.number() {
        Err(other)
    } else {
        Err(fault)
    }
}
