use input_core::PutFault;
use std::alloc::AllocError;

/// Why the cases were not all run: a line is of no known form, the cases were not read, the output was not
/// written, or memory ran out.
#[derive(Drop)]
pub enum Stop {
    Unclear,
    Unread,
    Unwritten,
    Memory,
}

impl From<AllocError> for Stop {
    fn from(_: AllocError) -> Stop {
        Stop::Memory
    }
}

impl From<PutFault> for Stop {
    fn from(_: PutFault) -> Stop {
        Stop::Unwritten
    }
}
