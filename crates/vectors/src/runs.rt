//! Runs of the program over bundles and lines in memory.
ghost use Rattle.std.specs.Prelude.{None};

use crate::bundles::words_of;
use resb::Resource;
use std::alloc::{AllocError, Global};
use std::fmt::Write;
use std::str::from_utf8;
use std::test::Fail;
use tell::{Failed, MemSink, MemSource, Source, Status, run};

/// A line, and the answer to it.
pub type Row = (&'static str, &'static str);

/// The command whose answers are English.
pub const EN: [&str; 3] = ["at", "en", "F"];

// Room for the answers of every table.
const ROOM: usize = 10_000;

/// A source that gives one byte a read, and perhaps fails at its end.
#[derive(Drop)]
pub struct SlowSource {
    pub inner: MemSource,
    pub fails_at_end: bool,
}

impl Source for SlowSource {
    ghost left = { λ _. None };

    ghost faults = { λ _. 18446744073709551615 };

    fn read(&mut self, buf: &mut [u8]) -> Result<usize, Failed> {
        let room = buf.len().min(1);
        let count = self.inner.read(&mut buf[..room])?;
        if count == 0 && self.fails_at_end {
            return Err(Failed);
        }
        Ok(count)
    }
}

/// The words of a command.
pub fn words(alloc: Global, words: &[&str]) -> Result<Vec<String>, AllocError> {
    let mut all = Vec::new(alloc);
    for word in words {
        all.push(String::from_str(alloc, word)?)?;
    }
    Ok(all)
}

/// The bytes of words, low ones first.
pub fn bytes_of(alloc: Global, words: &[u32]) -> Result<Vec<u8>, AllocError> {
    let mut bytes = Vec::new(alloc);
    for word in words {
        bytes.extend_from_slice(&word.to_le_bytes())?;
    }
    Ok(bytes)
}

/// The bytes of a tree, or none where it cannot be written.
pub fn written(alloc: Global, tree: &Resource) -> Result<Vec<u8>, Fail> {
    Ok(bytes_of(alloc, &words_of(alloc, tree)?)?)
}

/// A run over a bundle and an input: how it ended, and what was written.
pub fn ran<I: Source + Drop>(
    alloc: Global,
    args: &[&str],
    bundle: Vec<u8>,
    mut input: I,
) -> Result<(Status, Vec<u8>), AllocError> {
    let args = words(alloc, args)?;
    let mut bundle = MemSource::new(bundle, Vec::new(alloc));
    let mut output = MemSink::new(alloc, ROOM, Vec::new(alloc))?;
    let status = run(alloc, &args, &mut bundle, &mut input, &mut output);
    Ok((status, Vec::from_slice(alloc, output.bytes())?))
}

/// The same over an input in memory.
pub fn ran_over(
    alloc: Global,
    args: &[&str],
    bundle: Vec<u8>,
    input: &[u8],
) -> Result<(Status, Vec<u8>), AllocError> {
    let input = MemSource::new(Vec::from_slice(alloc, input)?, Vec::new(alloc));
    ran(alloc, args, bundle, input)
}

/// The same over an input that comes byte by byte.
pub fn ran_slowly(
    alloc: Global,
    args: &[&str],
    bundle: Vec<u8>,
    input: &[u8],
    fails_at_end: bool,
) -> Result<(Status, Vec<u8>), AllocError> {
    let inner = MemSource::new(Vec::from_slice(alloc, input)?, Vec::new(alloc));
    let input = SlowSource {
        inner,
        fails_at_end,
    };
    ran(alloc, args, bundle, input)
}

/// What was answered to a line alone, where it is not the row's answer: empty where every line is answered as its row says.
pub fn differences(
    alloc: Global,
    args: &[&str],
    bundle: &[u8],
    rows: &[Row],
) -> Result<String, Fail> {
    let mut told = String::new(alloc);
    for (line, answer) in rows {
        let bundle = Vec::from_slice(alloc, bundle)?;
        let (status, text) = ran_over(alloc, args, bundle, line.as_bytes())?;
        let mut wanted = Vec::from_slice(alloc, answer.as_bytes())?;
        wanted.push(b'\n')?;
        if status != Status::Done || text.as_slice() != wanted.as_slice() {
            let text = from_utf8(&text).ok().ok_or("the answer is text")?;
            write!(&mut told, "{line} is answered {text}")?;
        }
    }
    Ok(told)
}

/// The lines of rows as one input, and the answers to all of them.
pub fn joined(alloc: Global, rows: &[Row]) -> Result<(Vec<u8>, Vec<u8>), AllocError> {
    let mut lines = Vec::new(alloc);
    let mut answers = Vec::new(alloc);
    for (line, answer) in rows {
        lines.extend_from_slice(line.as_bytes())?;
        lines.push(b'\n')?;
        answers.extend_from_slice(answer.as_bytes())?;
        answers.push(b'\n')?;
    }
    Ok((lines, answers))
}
