//! An engine that is no command, served as the commands are.
use std::alloc::{AllocError, Global};
use std::test::Fail;
use tell::{Answer, MemSink, MemSource, Status, serve};

/// Says of each line that it came.
#[derive(Drop)]
struct Receipts;

impl Answer for Receipts {
    ghost use Rattle.std.specs.Prelude.{◌≡◌, codes};

    ghost reply = { λ _ _ text. text ≡ codes "came\n" };

    fn answer(&self, alloc: Global, _line: &[u8]) -> Result<String, AllocError> {
        let text = String::from_str(alloc, "came\n")?;
        Ok(text)
    }

    ghost cuts_long_lines = { λ _ _ _ _. (λ is. is, λ is. is) };
}

/// What an engine wrote for an input, and how that ended.
fn served<A: Answer>(
    alloc: Global,
    engine: &A,
    input: &[u8],
    fails: &[u64],
) -> Result<(Status, Vec<u8>), AllocError> {
    let fails = Vec::from_slice(alloc, fails)?;
    let mut input = MemSource::new(Vec::from_slice(alloc, input)?, fails);
    let mut output = MemSink::new(alloc, 100, Vec::new(alloc))?;
    let status = serve(alloc, engine, &mut input, &mut output);
    Ok((status, Vec::from_slice(alloc, output.bytes())?))
}

#[test]
fn serves_any_engine(rt: HostRuntime) -> Result<(), Fail> {
    let alloc = rt.alloc();
    let (status, text) = served(alloc, &Receipts, b"one\n\nthree", &[])?;
    assert_eq!(rt; status, Status::Done);
    assert_eq!(rt; text.as_slice(), b"came\ncame\ncame\n".as_slice());
    // the second read fails, so the line that has not ended has no reply
    let (status, text) = served(alloc, &Receipts, b"one\n\nthree", &[2])?;
    assert_eq!(rt; status, Status::ReadFault);
    assert_eq!(rt; text.as_slice(), b"came\ncame\n".as_slice());
    Ok(())
}
