ghost use Rattle.std.specs.Prelude.{◌≡◌};
ghost use Rattle.run_core.specs.Numbers.{number_of};

/// How a run ends.
#[derive(Clone, Copy)]
pub enum ToolStatus {
    /// What was asked for is printed.
    Done,
    /// What was given is not what it should be: rooms that aren't legal, a certificate that is not valid.
    No,
    /// The words are no command.
    Usage,
    /// The search spent its budget, and what it found so far is printed.
    Open,
    /// A file is too long or not of its form, or the files give no problem.
    BadInput,
    /// A file was not read.
    ReadFault,
    /// A file was not put, or the answer was not written whole.
    WriteFault,
    /// Memory ran out.
    Memory,
}

impl ToolStatus {
    /// The exit status of the program.
    pub fn number(self) -> u8
        ensures { result ≡ number_of self }
    {
        match self {
            ToolStatus::Done => 0,
            ToolStatus::No => 1,
            ToolStatus::Usage => 2,
            ToolStatus::Open => 3,
            ToolStatus::BadInput => 4,
            ToolStatus::ReadFault => 5,
            ToolStatus::WriteFault => 6,
            ToolStatus::Memory => 7,
        }
    }
}
