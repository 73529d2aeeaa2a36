ghost use Rattle.std.specs.Prelude.{◌≡◌, ◌+◌, ◌*◌, ◌∷◌, [], ◌++◌, OnOk};
ghost use Rattle.resb.specs.Packing.{pack_units, pack_bytes};

use std::alloc::AllocError;

/// The word of two units.
pub fn pair(low: u16, high: u16) -> u32
    ensures { result ≡ low + 65536 * high }
{
    u32::from(low) + 65_536 * u32::from(high)
}

/// Appends the words of units, two to a word, the low unit first. A zero fills the last word.
pub fn push_units(out: &mut Vec<u32>, units: &[u16]) -> Result<(), AllocError>
    ensures { OnOk result (out.new.items ≡ out.old.items ++ pack_units units.now) }
{
    let mut rest = units;
    while let [low, high, more @ ..] = rest {
        out.push(pair(*low, *high))?;
        rest = more;
    }
    if let [low] = rest {
        out.push(u32::from(*low))?;
    }
    Ok(())
}

/// Appends the words of units and a zero behind them.
pub fn push_text(out: &mut Vec<u32>, units: &[u16]) -> Result<(), AllocError>
    ensures { OnOk result (out.new.items ≡ out.old.items ++ pack_units (units.now ++ 0 ∷ [])) }
{
    push_units(out, units)?;
    if units.len() % 2 == 0 {
        out.push(0)?;
    }
    Ok(())
}

/// Appends the words of bytes, four to a word, the low byte first. Zeros fill the last word.
pub fn push_bytes(out: &mut Vec<u32>, bytes: &[u8]) -> Result<(), AllocError>
    ensures { OnOk result (out.new.items ≡ out.old.items ++ pack_bytes bytes.now) }
{
    let mut rest = bytes;
    while let [a, b, c, d, more @ ..] = rest {
        let low = u32::from(*a) + 256 * u32::from(*b);
        let high = u32::from(*c) + 256 * u32::from(*d);
        out.push(low + 65_536 * high)?;
        rest = more;
    }
    match rest {
        [a] => out.push(u32::from(*a))?,
        [a, b] => out.push(u32::from(*a) + 256 * u32::from(*b))?,
        [a, b, c] => {
            out.push(u32::from(*a) + 256 * u32::from(*b) + 65_536 * u32::from(*c))?;
        }
        _ => {}
    }
    Ok(())
}
