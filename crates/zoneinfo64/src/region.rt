//! Codes of regions.
ghost use Rattle.std.specs.Prelude.{◌≡◌};

use std::marker::Model;

/// A region: two capitals and a zero byte, or three digits (ISO 3166-1 and UN M49, as ICU's `zoneinfo64` resources write
/// them).
#[derive(Clone, Copy, PartialEq, Eq, Debug)]
pub struct Region([u8; 3]);

impl Model for Region {
    ghost use Rattle.std.specs.Prelude.{ℕ, List};

    ghost Value = { List ℕ };

    ghost view = { λ a. a.0 };

    ghost inverse = { λ n. record { 0 = n } };
}

impl Region {
    ghost use Rattle.zoneinfo64.specs.RegionView.{code_of_bytes};

    /// The region of three bytes; `None` unless they are two capitals and a zero byte, or three digits.
    pub fn try_from_raw(raw: [u8; 3]) -> Option<Region>
        ensures { result ≡ code_of_bytes raw }
    {
        let [a, b, c] = raw;
        let two_letters = a.is_ascii_uppercase() && b.is_ascii_uppercase() && c == 0;
        let three_digits = a.is_ascii_digit() && b.is_ascii_digit() && c.is_ascii_digit();
        if two_letters || three_digits {
            Some(Region([a, b, c]))
        } else {
            None
        }
    }

    /// Its three bytes.
    pub fn raw(&self) -> [u8; 3]
        ensures { result ≡ self.now }
    {
        self.0
    }
}
