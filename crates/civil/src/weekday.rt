/// A day of the week.
#[derive(Clone, Copy, PartialEq, Eq, Hash)]
pub enum Weekday {
    Mon,
    Tue,
    Wed,
    Thu,
    Fri,
    Sat,
    Sun,
}

impl Weekday {
    ghost use Rattle.std.specs.Prelude.{◌≡◌, ◌<◌};
    ghost use Rattle.civil.specs.Weekdays.{days_from_monday};

    /// The days since Monday: 0 for Monday to 6 for Sunday.
    pub fn num_days_from_monday(&self) -> u32
        ensures { result ≡ days_from_monday self.now }
    {
        match self {
            Weekday::Mon => 0,
            Weekday::Tue => 1,
            Weekday::Wed => 2,
            Weekday::Thu => 3,
            Weekday::Fri => 4,
            Weekday::Sat => 5,
            Weekday::Sun => 6,
        }
    }

    // The weekday so many days after Monday.
    pub(crate) fn from_monday(days: u8) -> Weekday
        requires { days < 7 }
        ensures { days_from_monday result ≡ days }
    {
        match days {
            0 => Weekday::Mon,
            1 => Weekday::Tue,
            2 => Weekday::Wed,
            3 => Weekday::Thu,
            4 => Weekday::Fri,
            5 => Weekday::Sat,
            _ => Weekday::Sun,
        }
    }
}
