//! The ways in which a run of the program ends, and their exit codes.
ghost use Rattle.std.specs.Prelude.{◌≡◌};
ghost use Rattle.concon_run.specs.Status.{exit_code};

/// How a run ended.
#[derive(Clone, Copy, Debug, PartialEq, Eq)]
pub enum Status {
    /// The system is confluent, or the conditions are never met.
    Yes,
    /// The system is not confluent, or the conditions are met.
    No,
    /// What is searched holds no valid certificate, or no answer; or the budget was spent.
    Maybe,
    /// The certificate is not valid.
    Rejected,
    /// The words are no command.
    Usage,
    /// The file is no text of a system, or too long.
    FileRefused,
    /// The certificate is no text of a certificate, or too long.
    CertRefused,
    /// The query is no text of one, or too long.
    QueryRefused,
    /// A file was not read.
    ReadFault,
    /// The answer was not written whole.
    WriteFault,
    /// Memory was refused.
    NoMemory,
}

impl Status {
    /// The exit code of the program.
    pub fn code(self) -> u8
        ensures { result ≡ exit_code self }
    {
        match self {
            Status::Yes | Status::No => 0,
            Status::Maybe | Status::Rejected => 1,
            Status::Usage => 2,
            Status::FileRefused | Status::CertRefused | Status::QueryRefused => 3,
            Status::ReadFault => 4,
            Status::WriteFault => 5,
            Status::NoMemory => 6,
        }
    }
}
