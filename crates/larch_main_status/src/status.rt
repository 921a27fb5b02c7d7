ghost use Rattle.std.specs.Prelude.{◌≡◌};

/// How a call of the program ended.
#[derive(Clone, Copy, Debug, PartialEq, Eq)]
pub enum Status {
    /// Nothing is wrong in the last report, or the listing; or a certificate was accepted, or trimmed; or all claims
    /// hold in a model.
    Good,
    /// Something is wrong in the last report, or the listing; or a certificate was refused, or there is no such duty;
    /// or a text is no model of a trait, a claim fails in it, or there is no such trait.
    Remains,
    /// The words of the command line mean no command.
    Words,
    /// The source failed, or the folder.
    ReadFault,
    /// The sink failed.
    WriteFault,
    /// Out of memory.
    Memory,
    /// The input isn't in the session's grammar, or a certificate or a model isn't in its own.
    Malformed,
    /// Something passes a limit.
    Size,
    /// A file that was named isn't there.
    NoFile,
}

impl Status {
    ghost use Rattle.larch_main_status.specs.Status.{number_of};

    /// The number that the process ends with.
    pub fn number(&self) -> u8
        ensures { result ≡ number_of self.now }
    {
        match self {
            Status::Good => 0,
            Status::Remains => 1,
            Status::Words => 2,
            Status::ReadFault => 3,
            Status::WriteFault => 4,
            Status::Memory => 5,
            Status::Malformed => 6,
            Status::Size => 7,
            Status::NoFile => 8,
        }
    }
}
