ghost use Rattle.std.specs.Prelude.{None};

use crate::{
    Answer, Failed, MemSink, MemSource, ReadError, Sink, Source, Status, read_all, serve, write_all,
};
use std::alloc::{AllocError, Global};
use std::cell::Cell;
use std::test::Fail;

/// A source that gives a few bytes at a time, and may fail at its end.
#[derive(Drop)]
struct SlowSource {
    inner: MemSource,
    most: usize,
    fails_at_end: bool,
}

impl Source for SlowSource {
    ghost left = { λ _. None };

    ghost faults = { λ _. 18446744073709551615 };

    fn read(&mut self, buf: &mut [u8]) -> Result<usize, Failed> {
        let room = buf.len().min(self.most);
        let count = self.inner.read(&mut buf[..room])?;
        if count == 0 && self.fails_at_end {
            return Err(Failed);
        }
        Ok(count)
    }
}

/// A source of so many bytes `x`, which takes no memory for them.
#[derive(Drop)]
struct Long {
    left: usize,
}

impl Source for Long {
    ghost left = { λ _. None };

    ghost faults = { λ _. 18446744073709551615 };

    fn read(&mut self, buf: &mut [u8]) -> Result<usize, Failed> {
        let count = buf.len().min(self.left);
        buf[..count].fill(b'x');
        self.left -= count;
        Ok(count)
    }
}

/// An engine that tells how many bytes of a line it sees.
#[derive(Drop)]
struct LineLengths;

impl Answer for LineLengths {
    ghost reply = { λ _ _ _. Unit {0} };

    fn answer(&self, alloc: Global, line: &[u8]) -> Result<String, AllocError> {
        let count = line.len();
        let text = format!(in alloc; "{count}\n")?;
        Ok(text)
    }

    ghost cuts_long_lines = { λ _ _ _ _. (λ is. is, λ is. is) };
}

/// How a run over an input that comes so many bytes at a time ended, and what was written.
fn told_lengths(alloc: Global, input: &[u8], most: usize) -> Result<(Status, Vec<u8>), AllocError> {
    let inner = MemSource::new(Vec::from_slice(alloc, input)?, Vec::new(alloc));
    let mut input = SlowSource {
        inner,
        most,
        fails_at_end: false,
    };
    let mut output = MemSink::new(alloc, 10_000, Vec::new(alloc))?;
    let status = serve(alloc, &LineLengths, &mut input, &mut output);
    Ok((status, Vec::from_slice(alloc, output.bytes())?))
}

#[test]
fn replies_to_lines_in_any_pieces(rt: HostRuntime) -> Result<(), Fail> {
    let alloc = rt.alloc();
    for most in [1, 2, 3, 7, 1024, 1025, 4095, 4096, 5000] {
        for (input, replies) in [
            ("", ""),
            ("\n", "0\n"),
            ("ab", "2\n"),
            ("ab\n", "2\n"),
            ("ab\n\n\ncde", "2\n0\n0\n3\n"),
            ("\r\n a\n", "1\n2\n"),
        ] {
            let (status, written) = told_lengths(alloc, input.as_bytes(), most)?;
            assert_eq!(rt; status, Status::Done);
            assert_eq!(rt; written.as_slice(), replies.as_bytes());
        }
    }
    Ok(())
}

#[test]
fn keeps_the_start_of_a_long_line(rt: HostRuntime) -> Result<(), Fail> {
    let alloc = rt.alloc();
    for (length, kept) in [
        (1024, "1024\n"),
        (1025, "1025\n"),
        (1026, "1025\n"),
        (9000, "1025\n"),
    ] {
        let mut input = vec![in alloc; b'x'; length]?;
        for most in [1, 1000, 1025] {
            let (_, written) = told_lengths(alloc, &input, most)?;
            assert_eq!(rt; written.as_slice(), kept.as_bytes());
        }
        input.push(b'\n')?;
        let (_, written) = told_lengths(alloc, &input, 1000)?;
        assert_eq!(rt; written.as_slice(), kept.as_bytes());
    }
    Ok(())
}

#[test]
fn replies_to_all_ended_lines_before_a_fault(rt: HostRuntime) -> Result<(), Fail> {
    let alloc = rt.alloc();
    for most in [1, 100, 4096] {
        for (taken, replies) in [
            ("", ""),
            ("ab", ""),
            ("ab\n", "2\n"),
            ("ab\n\ncde", "2\n0\n"),
            ("ab\n\ncde\n", "2\n0\n3\n"),
        ] {
            let bytes = Vec::from_slice(alloc, taken.as_bytes())?;
            let mut input = SlowSource {
                inner: MemSource::new(bytes, Vec::new(alloc)),
                most,
                fails_at_end: true,
            };
            let mut output = MemSink::new(alloc, 100, Vec::new(alloc))?;
            let status = serve(alloc, &LineLengths, &mut input, &mut output);
            assert_eq!(rt; status, Status::ReadFault);
            assert_eq!(rt; output.bytes(), replies.as_bytes());
        }
    }
    Ok(())
}

#[test]
fn a_read_that_fails_ends_the_run(rt: HostRuntime) -> Result<(), Fail> {
    let alloc = rt.alloc();
    let mut text = vec![in alloc; b'x'; 4095]?;
    text.extend_from_slice(b"\nab\ncde")?;
    for (fails, status, replies) in [
        (1, Status::ReadFault, ""),
        (2, Status::ReadFault, "4095\n"),
        (3, Status::ReadFault, "4095\n2\n"),
        (4, Status::Done, "4095\n2\n3\n"),
    ] {
        let mut input = MemSource::new(text.clone()?, vec![in alloc; fails]?);
        let mut output = MemSink::new(alloc, 100, Vec::new(alloc))?;
        let ended = serve(alloc, &LineLengths, &mut input, &mut output);
        assert_eq!(rt; ended, status);
        assert_eq!(rt; output.bytes(), replies.as_bytes());
    }
    Ok(())
}

#[test]
fn a_write_that_fails_ends_the_run(rt: HostRuntime) -> Result<(), Fail> {
    let alloc = rt.alloc();
    let mut text = vec![in alloc; b'x'; 4095]?;
    text.extend_from_slice(b"\nab\ncde")?;
    for (fails, room, status, replies) in [
        (1, 100, Status::WriteFault, ""),
        (2, 100, Status::WriteFault, "4095\n"),
        (3, 100, Status::WriteFault, "4095\n2\n"),
        (4, 100, Status::Done, "4095\n2\n3\n"),
        (4, 9, Status::Done, "4095\n2\n3\n"),
        (4, 8, Status::WriteFault, "4095\n2\n3"),
        (4, 3, Status::WriteFault, "409"),
        (4, 0, Status::WriteFault, ""),
    ] {
        let mut input = MemSource::new(text.clone()?, Vec::new(alloc));
        let mut output = MemSink::new(alloc, room, vec![in alloc; fails]?)?;
        let ended = serve(alloc, &LineLengths, &mut input, &mut output);
        assert_eq!(rt; ended, status);
        assert_eq!(rt; output.bytes(), replies.as_bytes());
    }
    Ok(())
}

#[test]
fn an_input_has_16777216_bytes_at_most(rt: HostRuntime) -> Result<(), Fail> {
    let alloc = rt.alloc();
    for (bytes, status, replies, left) in [
        (16_777_216, Status::Done, "1025\n", 0),
        (16_777_217, Status::TooLong, "", 0),
        (16_777_300, Status::TooLong, "", 83),
    ] {
        let mut input = Long { left: bytes };
        let mut output = MemSink::new(alloc, 100, Vec::new(alloc))?;
        let ended = serve(alloc, &LineLengths, &mut input, &mut output);
        assert_eq!(rt; ended, status);
        assert_eq!(rt; output.bytes(), replies.as_bytes());
        assert_eq!(rt; input.left, left);
    }
    Ok(())
}

/// A source of two lines, each read alone, that notes how many writes there were before each read.
#[derive(Drop)]
struct TwoLines<'a> {
    writes: &'a Cell<usize>,
    seen: Vec<usize>,
}

impl Source for TwoLines<'_> {
    ghost left = { λ _. None };

    ghost faults = { λ _. 18446744073709551615 };

    fn read(&mut self, buf: &mut [u8]) -> Result<usize, Failed> {
        let Ok(()) = self.seen.push(self.writes.get()) else {
            return Err(Failed);
        };
        if self.seen.len() > 2 || buf.len() < 2 {
            return Ok(0);
        }
        buf[..2].copy_from_slice(b"a\n");
        Ok(2)
    }
}

/// A sink that counts its writes.
#[derive(Drop)]
struct Writes<'a> {
    count: &'a Cell<usize>,
}

impl Sink for Writes<'_> {
    ghost written = { λ _. None };

    ghost faults = { λ _. 18446744073709551615 };

    fn write(&mut self, piece: &[u8]) -> Result<usize, Failed> {
        self.count.set(self.count.get().saturating_add(1));
        Ok(piece.len())
    }
}

#[test]
fn writes_replies_before_the_next_read(rt: HostRuntime) -> Result<(), Fail> {
    let alloc = rt.alloc();
    let count = Cell::new(0);
    let mut input = TwoLines {
        writes: &count,
        seen: Vec::new(alloc),
    };
    let mut output = Writes { count: &count };
    let status = serve(alloc, &LineLengths, &mut input, &mut output);
    assert_eq!(rt; status, Status::Done);
    assert_eq!(rt; input.seen.as_slice(), [0, 1, 2].as_slice());
    Ok(())
}

#[test]
fn reads_and_writes_all_bytes(rt: HostRuntime) -> Result<(), Fail> {
    let alloc = rt.alloc();
    let text = vec![in alloc; b'x'; 9000]?;
    let mut source = MemSource::new(text.clone()?, Vec::new(alloc));
    assert_eq!(rt; read_all(alloc, &mut source, 9000), Ok(text.clone()?));
    let mut sink = MemSink::new(alloc, 9000, Vec::new(alloc))?;
    assert_eq!(rt; write_all(&mut sink, &text), Ok(()));
    assert_eq!(rt; sink.bytes(), text.as_slice());
    assert_eq!(rt; write_all(&mut sink, b"y"), Err(Failed));

    let mut longer = MemSource::new(text.clone()?, Vec::new(alloc));
    assert_eq!(rt; read_all(alloc, &mut longer, 8999), Err(ReadError::TooLong));
    let mut failing = MemSource::new(text, vec![in alloc; 2]?);
    assert_eq!(rt; read_all(alloc, &mut failing, 9000), Err(ReadError::Fault));
    Ok(())
}

#[test]
fn calls_in_memory_fail_by_number(rt: HostRuntime) -> Result<(), Fail> {
    let alloc = rt.alloc();
    let mut piece = [0u8; 2];
    let mut source = MemSource::new(Vec::from_slice(alloc, b"abc")?, vec![in alloc; 2]?);
    assert_eq!(rt; source.read(&mut piece), Ok(2));
    assert_eq!(rt; source.read(&mut piece), Err(Failed));
    assert_eq!(rt; source.read(&mut piece), Ok(1));
    assert_eq!(rt; piece, *b"cb");
    assert_eq!(rt; source.read(&mut piece), Ok(0));

    let mut sink = MemSink::new(alloc, 3, vec![in alloc; 1]?)?;
    assert_eq!(rt; sink.write(b"ab"), Err(Failed));
    assert_eq!(rt; sink.write(b"ab"), Ok(2));
    assert_eq!(rt; sink.write(b"cd"), Ok(1));
    assert_eq!(rt; sink.write(b""), Ok(0));
    assert_eq!(rt; sink.write(b"d"), Err(Failed));
    assert_eq!(rt; sink.bytes(), b"abc".as_slice());
    Ok(())
}

#[test]
fn each_status_has_its_code(rt: HostRuntime) -> Result<(), Fail> {
    let codes = [
        (Status::Done, 0),
        (Status::Usage, 2),
        (Status::Bundle, 3),
        (Status::ReadFault, 4),
        (Status::WriteFault, 5),
        (Status::Memory, 6),
        (Status::TooLong, 7),
    ];
    for (status, code) in codes {
        assert_eq!(rt; status.code(), code);
    }
    Ok(())
}
