ghost use Rattle.std.specs.Prelude.{◌≡◌};
ghost use Rattle.gpt_cli.specs.Statuses.{code_of};

/// How a run of the program ends.
#[derive(Clone, Copy, Debug, PartialEq, Eq)]
pub enum Status {
    /// The report was written, and no call is left.
    Done,
    /// The input is too long, a line of it is bad, or its plan or base is refused; one line says
    /// so.
    Refused,
    /// The words are no command; the usage line was written, and nothing was read.
    Usage,
    /// A read failed, and nothing was written.
    ReadFailed,
    /// A write failed, and a proper prefix of the text was written.
    WriteFailed,
    /// Memory ran out, and nothing was written.
    NoMemory,
    /// The schedule is used up and calls are left; the report was written.
    Left,
}

impl Status {
    /// The exit status: 0 to 6 in the order above.
    pub fn code(self) -> u8
        ensures { result ≡ code_of self }
    {
        match self {
            Status::Done => 0,
            Status::Refused => 1,
            Status::Usage => 2,
            Status::ReadFailed => 3,
            Status::WriteFailed => 4,
            Status::NoMemory => 5,
            Status::Left => 6,
        }
    }
}
