ghost use Rattle.std.specs.Prelude.{◌≡◌};
ghost use Rattle.measure_file.specs.Faults.{fault_in};

use input_core::{LineFault, LineKind, Memory, TextFault};
use std::alloc::AllocError;

/// Why a line was not added.
#[derive(Clone, Copy)]
pub enum EntryFault {
    Kind(LineKind),
    Memory,
}

impl EntryFault {
    /// The fault, of the line with this number.
    pub fn in_line(self, line: u64) -> TextFault
        ensures { result ≡ fault_in line self }
    {
        match self {
            EntryFault::Kind(kind) => TextFault::Line(LineFault { line, kind }),
            EntryFault::Memory => TextFault::Memory,
        }
    }
}

impl From<LineKind> for EntryFault {
    ghost use Rattle.std.specs.Prelude.{◌≡◌};
    ghost use Rattle.measure_file.specs.declared.faults.EntryFault.TheVariants.{Kind};

    ghost from_gives = { λ kind e. e ≡ Kind kind };

    fn from(kind: LineKind) -> EntryFault {
        EntryFault::Kind(kind)
    }
}

impl From<AllocError> for EntryFault {
    ghost use Rattle.std.specs.Prelude.{◌≡◌};
    ghost use Rattle.measure_file.specs.declared.faults.EntryFault.TheVariants.{Memory};

    ghost from_gives = { λ _ e. e ≡ Memory };

    fn from(_: AllocError) -> EntryFault {
        EntryFault::Memory
    }
}

impl From<Memory> for EntryFault {
    ghost use Rattle.std.specs.Prelude.{◌≡◌};
    ghost use Rattle.measure_file.specs.declared.faults.EntryFault.TheVariants as faults;

    ghost from_gives = { λ _ e. e ≡ faults.Memory };

    fn from(_: Memory) -> EntryFault {
        EntryFault::Memory
    }
}
