ghost use Rattle.std.specs.Prelude.{◌≡◌};
ghost use Rattle.run_core.specs.Numbers.{number_of};
ghost use Rattle.itc_score.specs.Statuses.{tool_status, IsStatus};

use run_core::ToolStatus;

/// How a run ends.
#[derive(Clone, Copy)]
pub enum ScoreStatus {
    /// The score is printed.
    Done,
    /// The words aren't two names.
    Usage,
    /// A file is too long or not of its form.
    BadInput,
    /// A file was not read.
    ReadFault,
    /// The answer was not written whole.
    WriteFault,
    /// Memory ran out.
    Memory,
}

impl ScoreStatus {
    /// The exit status of the program.
    pub fn number(self) -> u8
        ensures { result ≡ number_of (tool_status self) }
    {
        match self {
            ScoreStatus::Done => 0,
            ScoreStatus::Usage => 2,
            ScoreStatus::BadInput => 4,
            ScoreStatus::ReadFault => 5,
            ScoreStatus::WriteFault => 6,
            ScoreStatus::Memory => 7,
        }
    }
}

/// The status of a run that ends so.
pub fn score_status(status: ToolStatus) -> ScoreStatus
    requires { IsStatus status }
    ensures { tool_status result ≡ status }
{
    match status {
        ToolStatus::Done => ScoreStatus::Done,
        ToolStatus::Usage => ScoreStatus::Usage,
        ToolStatus::BadInput => ScoreStatus::BadInput,
        ToolStatus::ReadFault => ScoreStatus::ReadFault,
        ToolStatus::WriteFault => ScoreStatus::WriteFault,
        ToolStatus::Memory => ScoreStatus::Memory,
        ToolStatus::No | ToolStatus::Open => unreachable!(),
    }
}
