use cow_script::ParseFault;
use std::process::ExitCode;

/// How a run ended.
#[derive(Clone, Copy, Debug, PartialEq, Eq)]
pub enum Status {
    /// The script was read to its end and run, all that it prints was written, and all units came back.
    Ok,
    /// The words are no option.
    Usage,
    /// What is wrong with the first faulty line, or, as a limit of line 0, that the script is longer than
    /// 1,048,576 bytes. Nothing of it ran.
    Script(ParseFault),
    /// The source failed. Nothing was written.
    ReadFault,
    /// The sink failed. A front of what the run writes was written.
    WriteFault,
    /// Memory ran out. A front of what the run writes was written.
    NoMemory,
    /// As `Ok`, but `spare` of the `stock` units came back.
    Leak { spare: u64, stock: u64 },
    /// The first line of the script that isn't built. Nothing of it ran.
    NotYet { line: u64 },
}

impl Status {
    ghost use Rattle.std.specs.Prelude.{◌≡◌};
    ghost use Rattle.cow_run.specs.Answer.{code_of};

    /// The exit status of the process.
    pub fn code(&self) -> u8
        ensures { result ≡ code_of self.now }
    {
        match self {
            Status::Ok => 0,
            Status::Usage => 2,
            Status::Script(_) => 3,
            Status::ReadFault => 4,
            Status::WriteFault => 5,
            Status::NoMemory => 6,
            Status::Leak { .. } => 7,
            Status::NotYet { .. } => 9,
        }
    }
}

impl From<Status> for ExitCode {
    fn from(status: Status) -> Self {
        ExitCode::from(status.code())
    }
}
