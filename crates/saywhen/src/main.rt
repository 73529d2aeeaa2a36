//! Answers lines of dates in the zones of a bundle.
#![tactic(auto)]

mod edge;

use edge::{FileSource, StreamSink, StreamSource};
use std::env;
use std::process::ExitCode;
use tell::{Status, run};

fn main(rt: HostRuntime) -> ExitCode {
    let Ok(mut words) = env::args(&rt) else {
        return ExitCode::from(8);
    };
    let _name = words.next();
    let Ok(words) = words.collect::<Vec<String>>(rt.alloc()) else {
        return ExitCode::from(Status::Memory.code());
    };
    let path = match words.get(2) {
        Some(path) => path.as_str(),
        None => "",
    };
    let mut bundle = FileSource::new(&rt, path);
    let mut input = StreamSource::new(rt.stdin());
    let mut output = StreamSink::new(rt.stdout());
    let status = run(rt.alloc(), &words, &mut bundle, &mut input, &mut output);
    ExitCode::from(status.code())
}

#[cfg(test)]
mod tests {
    use super::*;
    use std::test::Fail;
    use tell::{Failed, Source};

    #[test]
    fn a_missing_file_is_a_read_fault(rt: HostRuntime) -> Result<(), Fail> {
        let mut bundle = FileSource::new(&rt, "no such file");
        let mut piece = [0u8; 4];
        assert_eq!(rt; bundle.read(&mut piece), Err(Failed));
        Ok(())
    }
}
