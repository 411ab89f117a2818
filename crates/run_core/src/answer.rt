ghost use Rattle.std.specs.Prelude.{◌≡◌};

use crate::status::ToolStatus;
use input_core::Memory;
use std::alloc::AllocError;

/// A status, and the text that is printed with it.
#[derive(Drop)]
pub struct Answer {
    pub status: ToolStatus,
    pub text: Vec<u8>,
}

/// Why a command ends before its work is done.
#[derive(Drop)]
pub enum Stop {
    /// An input doesn't allow it, as the answer says.
    Answer(Answer),
    /// The file that the command writes was not put; nothing is printed.
    NotPut,
    /// Memory ran out.
    Memory,
}

impl From<AllocError> for Stop {
    ghost use Rattle.run_core.specs.declared.answer.Stop.TheVariants.{Memory};
    ghost use Rattle.std.specs.Prelude.{◌≡◌};

    ghost from_gives = { λ _ e. e ≡ Memory };

    fn from(_: AllocError) -> Stop {
        Stop::Memory
    }
}

impl From<Memory> for Stop {
    ghost use Rattle.run_core.specs.declared.answer.Stop.TheVariants.{Memory};
    ghost use Rattle.std.specs.Prelude.{◌≡◌};

    ghost from_gives = { λ _ e. e ≡ Memory };

    fn from(_: Memory) -> Stop {
        Stop::Memory
    }
}

impl From<problem_core::Memory> for Stop {
    ghost use Rattle.run_core.specs.declared.answer.Stop.TheVariants.{Memory};
    ghost use Rattle.std.specs.Prelude.{◌≡◌};

    ghost from_gives = { λ _ e. e ≡ Memory };

    fn from(_: problem_core::Memory) -> Stop {
        Stop::Memory
    }
}
