ghost use Rattle.std.specs.Prelude.{◌≡◌};
ghost use Rattle.simplex_tableau.specs.declared.fault.Fault.TheVariants as fault;

use exact_num::Wide;
use std::alloc::AllocError;

/// Why a step has no answer.
#[derive(Clone, Copy)]
pub enum Fault {
    /// A working number does not fit.
    Wide,
    /// Memory ran out.
    Memory,
}

impl From<AllocError> for Fault {
    ghost from_gives = { λ _ e. e ≡ fault.Memory };

    fn from(_: AllocError) -> Fault {
        Fault::Memory
    }
}

impl From<Wide> for Fault {
    ghost from_gives = { λ _ e. e ≡ fault.Wide };

    fn from(_: Wide) -> Fault {
        Fault::Wide
    }
}
