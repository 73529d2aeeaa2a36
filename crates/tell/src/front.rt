//! What stands before the words of a distance: it is written from its end, into one buffer, and appended at once.
ghost use Rattle.std.specs.Prelude.{◌≡◌, ◌+◌, ◌/◌, ◌<◌, ◌≤◌, [], ◌∷◌, ◌++◌, length, drop, OnOk};
ghost use Rattle.std.specs.Str.{IsAscii};
ghost use Rattle.std.specs.Fmt.{decimal, signed_decimal};
ghost use Rattle.std.specs.String.{string_bytes};
ghost use Rattle.tell.specs.ReplyTexts.{side_text};
ghost use Rattle.tell.specs.Inside.ReplyParts.{front_text};

use crate::moment::Moment;
use itoa::write_digits;
use std::alloc::AllocError;
use std::str::from_utf8_unchecked;

// Two numbers of at most 20 bytes, one of at most 10, and 5 bytes between and behind them.
const ROOM: usize = 64;

// Writes a byte before a place, and answers where it stands.
#[inline(always)]
fn write_byte(byte: u8, buffer: &mut [u8], end: usize) -> usize
    requires some { 0 < end }
    requires within { end ≤ length buffer.old }
    ensures start { result + 1 ≡ end }
    ensures written { drop result buffer.new ≡ byte ∷ drop end buffer.old }
    ensures same { length buffer.new ≡ length buffer.old }
{
    let at = end - 1;
    buffer[at] = byte;
    at
}

// Writes a number before a place, and answers where it begins.
#[tactic(auto, using(crate::proofs::Fronts::few))]
#[inline(always)]
fn write_number(number: i64, buffer: &mut [u8], end: usize) -> usize
    requires some { 20 ≤ end }
    requires within { end ≤ length buffer.old }
    ensures start { end ≤ result + 20 }
    ensures before { result ≤ end }
    ensures written { drop result buffer.new ≡ signed_decimal number ++ drop end buffer.old }
    ensures same { length buffer.new ≡ length buffer.old }
{
    let at = write_digits(number.unsigned_abs(), buffer, end);
    if number < 0 {
        return write_byte(b'-', buffer, at);
    }
    at
}

// Writes a count before a place, and answers where it begins.
#[tactic(auto, using(crate::proofs::Fronts::few))]
#[inline(always)]
fn write_count(count: u32, buffer: &mut [u8], end: usize) -> usize
    requires some { 10 ≤ end }
    requires within { end ≤ length buffer.old }
    ensures start { end ≤ result + 10 }
    ensures before { result ≤ end }
    ensures written { drop result buffer.new ≡ decimal count ++ drop end buffer.old }
    ensures same { length buffer.new ≡ length buffer.old }
{
    write_digits(u64::from(count), buffer, end)
}

// The byte that tells on which side of the base a moment is.
#[inline(always)]
fn side(ahead: bool) -> u8
    ensures { result ∷ [] ≡ side_text ahead }
{
    if ahead { b'+' } else { b'-' }
}

// Writes what stands before the words of a distance at the end of a buffer, and answers where it begins.
#[inline(always)]
fn write_front(moment: &Moment, ahead: bool, buffer: &mut [u8]) -> usize
    requires { length buffer.old ≡ 64 }
    ensures bound { result ≤ 64 }
    ensures written { drop result buffer.new
        ≡ front_text moment.now.second moment.now.nanos moment.now.offset ahead }
    ensures ascii { IsAscii (drop result buffer.new) }
    ensures same { length buffer.new ≡ 64 }
{
    let at = write_byte(b'\t', buffer, ROOM);
    let at = write_byte(side(ahead), buffer, at);
    let at = write_byte(b'\t', buffer, at);
    let at = write_number(i64::from(moment.offset), buffer, at);
    let at = write_byte(b'\t', buffer, at);
    let at = write_count(moment.nanos / 1000, buffer, at);
    let at = write_byte(b'\t', buffer, at);
    write_number(moment.second, buffer, at)
}

/// Appends what stands before the words of a distance: the second, the microseconds, the offset and the side of the base, each
/// with a tab behind it.
#[inline(never)]
pub fn push_front(out: &mut String, moment: &Moment, ahead: bool) -> Result<(), AllocError>
    ensures { OnOk result (string_bytes out.new ≡ string_bytes out.old
        ++ front_text moment.now.second moment.now.nanos moment.now.offset ahead) }
{
    let mut buffer = [0; ROOM];
    let at = write_front(moment, ahead, &mut buffer);
    out.push_str(unsafe { from_utf8_unchecked(&buffer[at..]) })
}
