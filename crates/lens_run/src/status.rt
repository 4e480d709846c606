//! The ways in which a run ends, and their exit codes.
ghost use Rattle.std.specs.Prelude.{◌≡◌};
ghost use Rattle.lens_run.specs.Status.{exit_code};

/// How a run ended.
#[derive(Clone, Copy, Debug, PartialEq, Eq)]
pub enum Status {
    /// The page is written.
    Done,
    /// A wider search found nothing; that is written.
    Nothing,
    /// The words are no command.
    Usage,
    /// The file is no text of a system, or too long.
    FileRefused,
    /// The certificate is no text of one, or too long.
    CertRefused,
    /// A file was not read.
    ReadFault,
    /// The page, or what is said in place of it, was not written whole.
    WriteFault,
    /// Memory was refused.
    NoMemory,
}

impl Status {
    /// The exit code of the program.
    pub fn code(self) -> u8
        ensures { result ≡ exit_code self }
    {
        match self {
            Status::Done => 0,
            Status::Nothing => 1,
            Status::Usage => 2,
            Status::FileRefused | Status::CertRefused => 3,
            Status::ReadFault => 4,
            Status::WriteFault => 5,
            Status::NoMemory => 6,
        }
    }
}
