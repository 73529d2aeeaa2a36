ghost use Rattle.std.specs.Prelude.{◌≡◌, ◌+◌, ◌^◌, ◌<◌, ◌≤◌, length, take, List, ℕ, OnOk, OnErr, IfOk, IsErrOf, vec_len};
ghost use Rattle.std.specs.Io.KnownBytes.{Appends, Consumes, IsAtEnd};
ghost use Rattle.streams.specs.Causes.{Rose};
ghost use Rattle.streams.specs.Whole.{TookAtMost, TookMore, GainsPart};

use crate::{Failed, Sink, Source};
use std::alloc::Global;

/// So many bytes are read at once.
pub const PIECE: usize = 4096;

// At most so much room is taken for a source before its first byte is read. It is enough for a bundle of the world's zones,
// and pages that nothing is written to cost nothing.
const FIRST_ROOM: usize = 262_144;

/// Why a source was not read to its end.
#[derive(Clone, Copy, Debug, PartialEq, Eq)]
pub enum ReadError {
    /// A read failed.
    Fault,
    /// Memory could not be found.
    Memory,
    /// The source gave more bytes than the limit.
    TooLong,
}

/// All bytes of a source.
///
/// It ends at the first of: a read that fails (`Fault`), the end of the source, more than `limit` bytes (`TooLong`; then at
/// most one byte past the limit was taken); or where memory cannot be found (`Memory`).
pub fn read_all<S: Source>(
    alloc: Global,
    source: &mut S,
    limit: usize,
) -> Result<Vec<u8>, ReadError>
    requires { limit < 2 ^ 32 }
    ensures whole { IfOk result
        (λ bytes. Consumes (S.left source.old) (S.left source.new) bytes.items) }
    ensures end { OnOk result (IsAtEnd (S.left source.new)) }
    ensures bound { IfOk result (λ bytes. vec_len bytes ≤ limit) }
    ensures cause { IsErrOf result ReadError.Fault
        → Rose (S.faults source.old) (S.faults source.new) }
    ensures too_long { IsErrOf result ReadError.TooLong → TookMore (S.left source.old) limit }
    ensures taken { TookAtMost (S.left source.old) (S.left source.new) (limit + 1) }
    ensures faults { S.faults source.old ≤ S.faults source.new }
{
    let Ok(mut bytes) = Vec::with_capacity(alloc, FIRST_ROOM.min(limit + 1)) else {
        return Err(ReadError::Memory);
    };
    let mut piece = [0u8; PIECE];
    'reading: loop {
        let room = (limit + 1 - bytes.len()).min(PIECE);
        let Ok(count) = source.read(&mut piece[..room]) else {
            return Err(ReadError::Fault);
        };
        if count == 0 {
            return Ok(bytes);
        }
        if bytes.extend_from_slice(&piece[..count]).is_err() {
            return Err(ReadError::Memory);
        }
        if bytes.len() > limit {
            return Err(ReadError::TooLong);
        }
    }
}

/// Writes all of the bytes, in as many calls as it takes.
///
/// It ends at the first write that fails; then a front part of the bytes was written.
pub fn write_all<O: Sink>(output: &mut O, bytes: &[u8]) -> Result<(), Failed>
    ensures ok { OnOk result (Appends (O.written output.old) (O.written output.new) bytes.now) }
    ensures written { GainsPart (O.written output.old) (O.written output.new) bytes.now }
    ensures faults { O.faults output.old ≤ O.faults output.new }
    ensures err { OnErr result (Rose (O.faults output.old) (O.faults output.new)) }
{
    let mut place = 0;
    'writing: while place < bytes.len() {
        place += output.write(&bytes[place..])?;
    }
    Ok(())
}
