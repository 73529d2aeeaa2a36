//! The command `load`: a large input is made and run, and what its answers come to is written.
ghost use Rattle.std.specs.Prelude.{◌≡◌, ◌+◌, List, ℕ, IfOk};
ghost use Rattle.std.specs.Io.KnownBytes.{Appends};
ghost use Rattle.tongues.specs.GermanicLanguages.{english};
ghost use Rattle.streams.specs.Causes.{Rose};
ghost use Rattle.streams.specs.Ends.{EndsAs};
ghost use Rattle.streams.specs.Lines.{lines as lines_of, ended};
ghost use Rattle.streams.specs.Report.{IsReport};
ghost use Rattle.tell.specs.ReplyTexts.{IsReply};
ghost use Rattle.tell.specs.LoadZones.{load_zones};
ghost use Rattle.tell.specs.Load.{load_input, summary, IsLoadSummary};
ghost use Rattle.tell.specs.Standing.{IsGainedByLoad};

use crate::large::{bundle, input};
use crate::program::at;
use crate::tally::{before_tab, count};
use std::alloc::{AllocError, Global};
use std::fmt::Write;
use streams::{MemSink, MemSource, Sink, Status, write_all};
use timeago::{AnyLanguage, English};

// Bytes for the answer to a line.
const ROOM: usize = 96;

// The answers to the lines, in the zones of the bundle.
fn answers(alloc: Global, lines: u32) -> Result<MemSink, AllocError>
    ensures { IfOk result
        (λ sink. IsReport (IsReply english (load_zones lines))
        (lines_of (load_input lines)) sink.written) }
{
    let mut bundle = MemSource::new(bundle(alloc, lines)?, Vec::new(alloc));
    let mut input = MemSource::new(input(alloc, lines)?, Vec::new(alloc));
    let mut answers = MemSink::new(alloc, ROOM * lines as usize, Vec::new(alloc))?;
    let language = AnyLanguage::English(English);
    match at(alloc, language, &mut bundle, &mut input, &mut answers) {
        Status::Done => Ok(answers),
        _ => Err(AllocError),
    }
}

// What the answers come to, as a line with its LF.
fn summary(alloc: Global, zones: u32, answers: &[u8]) -> Result<Vec<u8>, AllocError>
    ensures { IfOk result (λ line. line.items ≡ summary zones (ended answers.now)) }
{
    let tally = count(answers);
    let mut line = String::new(alloc);
    write!(
        line,
        "zones {zones} lines {zones} moments {} refusals {} last ",
        tally.moments, tally.refusals
    )?;
    let mut line = line.into_bytes();
    line.extend_from_slice(before_tab(tally.last))?;
    line.push(b'\n')?;
    Ok(line)
}

fn summed_up(alloc: Global, count: u32) -> Result<Vec<u8>, AllocError>
    ensures { IfOk result (λ line. IsLoadSummary count line.items) }
{
    let answers = answers(alloc, count)?;
    summary(alloc, count, answers.bytes())
}

/// Makes a bundle of so many zones and a line for each, runs the lines as `at` does in English, and writes what the answers
/// come to.
///
/// It ends with `WriteFault` where a write fails, and with `Memory` where memory cannot be found; then nothing was written.
pub fn load<O: Sink>(alloc: Global, count: u32, output: &mut O) -> Status
    ensures done { result ≡ Status.Done → (line : List ℕ) × IsLoadSummary count line
        × Appends (O.written output.old) (O.written output.new) line }
    ensures stands { (gained : List ℕ)
        × Appends (O.written output.old) (O.written output.new) gained
        × IsGainedByLoad count result gained }
    ensures ends { EndsAs Status.Done result }
    ensures no_read_fault { result ≡ Status.ReadFault → ⊥ }
    ensures no_usage { result ≡ Status.Usage → ⊥ }
    ensures no_bundle { result ≡ Status.Bundle → ⊥ }
    ensures no_too_long { result ≡ Status.TooLong → ⊥ }
    ensures write_fault { result ≡ Status.WriteFault
        → Rose (O.faults output.old) (O.faults output.new) }
{
    let Ok(line) = summed_up(alloc, count) else {
        return Status::Memory;
    };
    match write_all(output, &line) {
        Ok(()) => Status::Done,
        Err(_) => Status::WriteFault,
    }
}
