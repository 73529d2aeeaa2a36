ghost use Rattle.std.specs.Prelude.{◌≡◌, ◌≤◌, ◌==◌, ◌+◌, ℕ, List, [], length, IfOk, OnOk, OnErr, IsErrOf};
ghost use Rattle.std.specs.String.{string_bytes};
ghost use Rattle.streams.specs.Causes.{Rose};
ghost use Rattle.streams.specs.Whole.{Adds, TookAtMost, TookMore};
ghost use Rattle.streams.specs.Report.{CutsLongLines};
ghost use Rattle.streams.specs.Stands.{Stands};
ghost use Rattle.streams.specs.Ends.{most_input, served, EndsBy};
ghost use Rattle.streams.specs.Inside.Serving.{RepliesToEnd, LeadsOn, LeadsPartly, LeadsToEnd, LeadsPartlyToEnd, Gains};

use crate::line_start::LineStart;
use crate::whole::{PIECE, write_all};
use crate::{Answer, Failed, Sink, Source, Status};
use memchr::memchr;
use std::alloc::{AllocError, Global};

/// Why not all replies were written.
#[derive(Clone, Copy, Debug, PartialEq, Eq)]
enum ServeError {
    Fault,
    Memory,
}

impl From<AllocError> for ServeError {
    ghost use Rattle.std.specs.Prelude.{◌≡◌};
    ghost use Rattle.streams.specs.declared.serving.ServeError.TheVariants.{Memory};

    ghost from_gives = { λ _ e. e ≡ Memory };

    fn from(_: AllocError) -> ServeError {
        ServeError::Memory
    }
}

impl From<Failed> for ServeError {
    ghost use Rattle.std.specs.Prelude.{◌≡◌};
    ghost use Rattle.streams.specs.declared.serving.ServeError.TheVariants.{Fault};

    ghost from_gives = { λ _ e. e ≡ Fault };

    fn from(_: Failed) -> ServeError {
        ServeError::Fault
    }
}

const MAX_INPUT: usize = 16_777_216;

// Appends the reply to the line that began with what is kept, if anything is, and that ends with these bytes.
fn reply_to_line<A: Answer>(
    alloc: Global,
    engine: &A,
    start: &mut LineStart,
    bytes: &[u8],
    replies: &mut String,
) -> Result<(), AllocError>
    ensures reply { OnOk result (Adds (RepliesToEnd (A.reply engine.now) start.old bytes.now)
        (string_bytes replies.old) (string_bytes replies.new)) }
    ensures ended { OnOk result (start.new ≡ []) }
{
    if start.is_empty() {
        engine.answer_into(alloc, bytes, replies)?;
        return Ok(());
    }
    start.keep(bytes)?;
    engine.answer_into(alloc, start.bytes(), replies)?;
    start.clear();
    Ok(())
}

// Appends the replies to the lines that end in a piece, and keeps the start of the line that goes on behind it.
fn reply_to_piece<A: Answer>(
    alloc: Global,
    engine: &A,
    start: &mut LineStart,
    piece: &[u8],
    replies: &mut String,
) -> Result<(), AllocError>
    ensures { OnOk result (Adds (LeadsOn (A.reply engine.now) start.old start.new piece.now)
        (string_bytes replies.old) (string_bytes replies.new)) }
{
    let mut rest = piece;
    'ending: while let Some(len) = memchr(b'\n', rest) {
        reply_to_line(alloc, engine, start, &rest[..len], replies)?;
        rest = &rest[len + 1..];
    }
    start.keep(rest)?;
    Ok(())
}

// Replies to the lines that end in a piece, in one write where the sink takes as much.
fn serve_piece<A: Answer, O: Sink>(
    alloc: Global,
    engine: &A,
    start: &mut LineStart,
    piece: &[u8],
    replies: &mut String,
    output: &mut O,
) -> Result<(), ServeError>
    ensures ok { OnOk result (Gains (LeadsOn (A.reply engine.now) start.old start.new piece.now)
        (O.written output.old) (O.written output.new)) }
    ensures err { OnErr result (Gains (LeadsPartly (A.reply engine.now) start.old piece.now)
        (O.written output.old) (O.written output.new)) }
    ensures cause { IsErrOf result ServeError.Fault
        → Rose (O.faults output.old) (O.faults output.new) }
    ensures faults { O.faults output.old ≤ O.faults output.new }
{
    replies.clear();
    reply_to_piece(alloc, engine, start, piece, replies)?;
    write_all(output, replies.as_bytes())?;
    Ok(())
}

// Replies to the last line, where it has a byte and no LF.
fn serve_last<A: Answer, O: Sink>(
    alloc: Global,
    engine: &A,
    start: &LineStart,
    output: &mut O,
) -> Result<(), ServeError>
    ensures ok { OnOk result (Gains (LeadsToEnd (A.reply engine.now) start.now)
        (O.written output.old) (O.written output.new)) }
    ensures err { OnErr result (Gains (LeadsPartlyToEnd (A.reply engine.now) start.now)
        (O.written output.old) (O.written output.new)) }
    ensures cause { IsErrOf result ServeError.Fault
        → Rose (O.faults output.old) (O.faults output.new) }
    ensures faults { O.faults output.old ≤ O.faults output.new }
{
    if start.is_empty() {
        return Ok(());
    }
    let reply = engine.answer(alloc, start.bytes())?;
    write_all(output, reply.as_bytes())?;
    Ok(())
}

/// Replies to each line of the input, with what the engine answers to it.
///
/// The input is read in pieces of at most 4,096 bytes, and the replies to the lines that end in a piece are written before
/// the next one is read. Of a line that has not ended at most 1,025 bytes are kept. It ends at the first of: a read that
/// fails (`ReadFault`), a write that fails (`WriteFault`), the end of the input (`Done`), an input of more than 16,777,216
/// bytes (`TooLong`); or where memory cannot be found (`Memory`).
pub fn serve<A: Answer, I: Source, O: Sink>(
    alloc: Global,
    engine: &A,
    input: &mut I,
    output: &mut O,
) -> Status
    ensures stands { Stands (A.reply engine.now) result (I.left input.old) (I.left input.new)
        (O.written output.old) (O.written output.new) }
    ensures ends { EndsBy (served (I.left input.old)) result }
    ensures too_long { result ≡ Status.TooLong → TookMore (I.left input.old) most_input }
    ensures read_fault { result ≡ Status.ReadFault
        → Rose (I.faults input.old) (I.faults input.new) }
    ensures write_fault { result ≡ Status.WriteFault
        → Rose (O.faults output.old) (O.faults output.new) }
    ensures no_usage { result ≡ Status.Usage → ⊥ }
    ensures no_bundle { result ≡ Status.Bundle → ⊥ }
    ensures taken { TookAtMost (I.left input.old) (I.left input.new) (most_input + 1) }
{
    let mut piece = [0u8; PIECE];
    let mut start = LineStart::new(alloc);
    let mut replies = String::new(alloc);
    let mut taken = 0;
    'serving: loop {
        let room = (MAX_INPUT + 1 - taken).min(PIECE);
        let Ok(count) = input.read(&mut piece[..room]) else {
            return Status::ReadFault;
        };
        if count == 0 {
            match serve_last(alloc, engine, &start, output) {
                Ok(()) => return Status::Done,
                Err(ServeError::Fault) => return Status::WriteFault,
                Err(ServeError::Memory) => return Status::Memory,
            }
        }
        match serve_piece(
            alloc,
            engine,
            &mut start,
            &piece[..count],
            &mut replies,
            output,
        ) {
            Ok(()) => taken += count,
            Err(ServeError::Fault) => return Status::WriteFault,
            Err(ServeError::Memory) => return Status::Memory,
        }
        if taken > MAX_INPUT {
            return Status::TooLong;
        }
    }
}
