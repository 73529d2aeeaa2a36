//! UTF-16 that may have surrogates without a partner.
ghost use Rattle.std.specs.Prelude.{IsTrue, IfOk, All, take, length, ◌<◌, ◌≤◌, ◌≡◌, ◌&&◌, ◌∷◌, [], Some, None, IfSome, IfNone, if◌then◌else◌};
ghost use Rattle.std.specs.Option.{unwrap_or};
ghost use Rattle.std.specs.Char.Utf16.{utf16_lossy_chars, lone_unit_char, is_high_surrogate, is_low_surrogate, surrogate_pair_char};
ghost use Rattle.std.specs.Iterator.{YieldsFirst, item_count};
ghost use Rattle.zoneinfo64.specs.Utf16View.{chars_in};
ghost use Rattle.std.specs.Str.{IsAscii};
ghost use Rattle.zoneinfo64.specs.NamedZone.{name_text};

use resb_tree::TextRef;
use sqlite_items::Items;
use std::alloc::{AllocError, Global};
use std::marker::Model;
use std::str::from_utf8_unchecked;

/// How a name is kept, as units and in UTF-8. A short one in ASCII, as most are, takes no memory of its own.
#[derive(Drop)]
enum Spelling {
    Short {
        units: [u16; 32],
        bytes: [u8; 32],
        len: usize,
    },
    Long {
        units: Items<u16>,
        text: String,
    },
}

/// A name in UTF-16, in which a surrogate may stand without its partner.
#[derive(Drop)]
pub struct PotentialUtf16 {
    spelling: Spelling,
}

impl Model for PotentialUtf16 {
    ghost use Rattle.std.specs.Prelude.{ℕ, List};

    ghost Value = { List ℕ };

    ghost use Rattle.zoneinfo64.specs.Inside.Spellings.{units_of, IsSpelling};

    ghost view = { λ a. units_of a.spelling };

    ghost invariant = { λ a. IsSpelling a.spelling };
}

/// Copies units as bytes, and tells whether all are in ASCII; if not, what is copied means nothing. It goes through the room
/// as a whole, without a branch, so that many units are copied at once.
fn copy_ascii(units: &[u16; 32], bytes: &mut [u8; 32]) -> bool
    ensures same { IsTrue result → bytes.new ≡ units.now }
    ensures ascii { IsTrue result → All (λ u. u < 128) units.now }
{
    let mut greatest = 0;
    for at in 0..32 {
        greatest = units[at].max(greatest);
        bytes[at] = (units[at] % 128) as u8;
    }
    greatest < 128
}

/// Copies a text of at most 32 units in ASCII, as units and as bytes; whether it is one.
fn copy_short(text: &TextRef<'_>, units: &mut [u16; 32], bytes: &mut [u8; 32]) -> bool
    ensures units { IsTrue result → take (length text.now) units.new ≡ text.now }
    ensures bytes { IsTrue result → take (length text.now) bytes.new ≡ name_text text.now }
    ensures ascii { IsTrue result → IsAscii (take (length text.now) bytes.new) }
    ensures short { IsTrue result → length text.now ≤ 32 }
{
    if text.len() > 32 {
        return false;
    }
    text.copy_to(units);
    copy_ascii(units, bytes)
}

impl PotentialUtf16 {
    ghost use Rattle.zoneinfo64.specs.NamedZone.{name_text};

    /// A name of the units of a text.
    pub(crate) fn from_text(alloc: Global, text: &TextRef<'_>) -> Result<PotentialUtf16, AllocError>
        ensures { IfOk result (λ name. name ≡ text.now) }
    {
        let mut units = [0; 32];
        let mut bytes = [0; 32];
        if copy_short(text, &mut units, &mut bytes) {
            let len = text.len();
            return Ok(PotentialUtf16 {
                spelling: Spelling::Short { units, bytes, len },
            });
        }
        let units = text.to_items(alloc)?;
        PotentialUtf16::from_units(alloc, units)
    }

    /// A name of these units.
    pub(crate) fn from_units(alloc: Global, units: Items<u16>) -> Result<PotentialUtf16, AllocError>
        ensures { IfOk result (λ name. name ≡ units) }
    {
        let text = String::from_utf16_lossy(alloc, units.as_slice())?;
        Ok(PotentialUtf16 {
            spelling: Spelling::Long { units, text },
        })
    }

    /// Its units.
    pub fn units(&self) -> &[u16]
        ensures { result.now ≡ self.now }
    {
        match &self.spelling {
            Spelling::Short { units, len, .. } => &units[..*len],
            Spelling::Long { units, .. } => units.as_slice(),
        }
    }

    /// Its characters in UTF-8.
    pub(crate) fn text(&self) -> &str
        ensures { result.now ≡ name_text self.now }
    {
        match &self.spelling {
            Spelling::Short { bytes, len, .. } => unsafe { from_utf8_unchecked(&bytes[..*len]) },
            Spelling::Long { text, .. } => text.as_str(),
        }
    }

    /// Its characters; U+FFFD stands for each surrogate without a partner.
    pub fn chars(&self) -> Utf16Chars<'_>
        ensures { chars_in result ≡ utf16_lossy_chars self.now }
    {
        Utf16Chars {
            units: self.units(),
        }
    }
}

/// The characters of units that are left, with U+FFFD for each surrogate without a partner.
#[derive(Drop)]
pub struct Utf16Chars<'a> {
    units: &'a [u16],
}

fn is_pair(high: u16, low: u16) -> bool
    ensures { result ≡ (is_high_surrogate high && is_low_surrogate low) }
{
    0xD800 <= high && high < 0xDC00 && 0xDC00 <= low && low < 0xE000
}

/// The character of a pair of surrogates.
fn pair(high: u16, low: u16) -> Option<char>
    ensures { result
        ≡ (if is_high_surrogate high && is_low_surrogate low
        then Some (surrogate_pair_char high low) else None) }
{
    if !is_pair(high, low) {
        return None;
    }
    let code = 0x1_0000 + (u32::from(high) - 0xD800) * 0x400 + (u32::from(low) - 0xDC00);
    char::from_u32(code)
}

/// The character of a unit that is in no pair.
fn lone(unit: u16) -> char
    ensures { result ≡ unwrap_or (lone_unit_char unit) 65533 }
{
    char::from_u32(u32::from(unit)).unwrap_or('\u{FFFD}')
}

/// The first character of units, and the units after it.
fn first_char(units: &[u16]) -> Option<(char, &[u16])>
    ensures some { IfSome result
        (λ p. utf16_lossy_chars units.now ≡ p.0 ∷ utf16_lossy_chars p.1.now) }
    ensures none { IfNone result (units.now ≡ []) }
{
    match units {
        [] => None,
        [unit] => Some((lone(*unit), &[])),
        [first, second, others @ ..] => match pair(*first, *second) {
            Some(found) => Some((found, others)),
            None => Some((lone(*first), &units[1..])),
        },
    }
}

impl<'a> Iterator for Utf16Chars<'a> {
    type Item = char;

    ghost next_gives = { YieldsFirst chars_in };

    ghost remaining = { item_count chars_in };

    fn next(&mut self) -> Option<char> {
        let (first, others) = first_char(self.units)?;
        self.units = others;
        Some(first)
    }
}
