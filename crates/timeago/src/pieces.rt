ghost use Rattle.std.specs.Prelude.{◌≡◌, ◌+◌, ◌<◌, ◌++◌, ◌∷◌, [], codes, decimal, OnOk, OnErr};
ghost use Rattle.std.specs.String.{string_bytes};
ghost use Rattle.timeago.specs.Appended.{Keeps};

use itoa::Buffer;
use std::alloc::AllocError;

// The character of a digit.
pub fn digit(n: u64) -> char
    requires { n < 10 }
    ensures { result ≡ 48 + n }
{
    char::from(b'0' + n as u8)
}

#[inline(always)]
fn push_digit(out: &mut String, n: u64) -> Result<(), AllocError>
    requires { n < 10 }
    ensures ok { OnOk result (string_bytes out.new ≡ string_bytes out.old ++ (48 + n) ∷ []) }
    ensures err { OnErr result (Keeps (string_bytes out.old) (string_bytes out.new)) }
{
    out.push(digit(n))?;
    Ok(())
}

// Appends a count in decimal digits; most counts have one or two.
#[inline(always)]
pub fn push_count(out: &mut String, count: u64) -> Result<(), AllocError>
    ensures ok { OnOk result (string_bytes out.new ≡ string_bytes out.old ++ decimal count) }
    ensures err { OnErr result (Keeps (string_bytes out.old) (string_bytes out.new)) }
{
    if count < 10 {
        push_digit(out, count)?;
        return Ok(());
    }
    if count < 100 {
        push_digit(out, count / 10)?;
        push_digit(out, count % 10)?;
        return Ok(());
    }
    let mut buffer = Buffer::new();
    out.push_str(buffer.format(count))?;
    Ok(())
}

// Appends what stands between two words: one space in most languages, nothing in some.
#[inline(always)]
pub fn push_between(out: &mut String, between: &str) -> Result<(), AllocError>
    ensures ok { OnOk result (string_bytes out.new ≡ string_bytes out.old ++ between.now) }
    ensures err { OnErr result (Keeps (string_bytes out.old) (string_bytes out.new)) }
{
    match between.as_bytes() {
        [] => {}
        b" " => out.push(' ')?,
        _ => out.push_str(between)?,
    }
    Ok(())
}

// Appends none of a unit: `0` and the unit's word.
pub fn push_no_count(out: &mut String, between: &str, word: &str) -> Result<(), AllocError>
    ensures ok { OnOk result (
        string_bytes out.new ≡ string_bytes out.old ++ codes "0" ++ between.now ++ word.now) }
    ensures err { OnErr result (Keeps (string_bytes out.old) (string_bytes out.new)) }
{
    out.push_str("0")?;
    push_between(out, between)?;
    out.push_str(word)?;
    Ok(())
}
