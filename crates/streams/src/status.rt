ghost use Rattle.std.specs.Prelude.{◌≡◌};
ghost use Rattle.streams.specs.Codes.{code_of};

/// How a run ended.
#[derive(Clone, Copy, Debug, PartialEq, Eq)]
pub enum Status {
    /// All input was read to its end, and every reply was written.
    Done,
    /// The words are no command; nothing was read or written.
    Usage,
    /// What the replies stand on was refused; the input was not read, and nothing was written.
    Bundle,
    /// A read failed.
    ReadFault,
    /// A write failed.
    WriteFault,
    /// Memory could not be found.
    Memory,
    /// The input has more than 16,777,216 bytes.
    TooLong,
}

impl Status {
    /// The exit status that stands for it: 0, or from 2 to 7.
    pub fn code(self) -> u8
        ensures { result ≡ code_of self }
    {
        match self {
            Status::Done => 0,
            Status::Usage => 2,
            Status::Bundle => 3,
            Status::ReadFault => 4,
            Status::WriteFault => 5,
            Status::Memory => 6,
            Status::TooLong => 7,
        }
    }
}
