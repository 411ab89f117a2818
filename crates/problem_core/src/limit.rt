ghost use Rattle.std.specs.Prelude.{◌≡◌};
ghost use Rattle.problem_core.specs.declared.limit.BuildFault.TheVariants.{Memory as OutOfMemory};

use crate::choice::Memory;
use std::alloc::AllocError;

/// A number that has a limit.
#[derive(Clone, Copy, Debug)]
pub enum LimitKind {
    /// Meetings in all.
    Meetings,
    /// Meetings of one course.
    CourseMeetings,
    /// Patterns: sets of meetings of a course that may share a room.
    Patterns,
    /// Rows "at most one of these patterns".
    Rows,
}

/// A number that is over its limit.
#[derive(Clone, Copy, Debug)]
pub struct Limit {
    pub kind: LimitKind,
    pub count: u64,
    pub limit: u64,
}

/// Why there is no problem, or no model of one.
#[derive(Clone, Copy, Debug)]
pub enum BuildFault {
    /// A number is over its limit.
    Limit(Limit),
    /// Memory ran out.
    Memory,
}

impl From<Memory> for BuildFault {
    ghost from_gives = { λ _ f. f ≡ OutOfMemory };

    fn from(_: Memory) -> BuildFault {
        BuildFault::Memory
    }
}

impl From<AllocError> for BuildFault {
    ghost from_gives = { λ _ f. f ≡ OutOfMemory };

    fn from(_: AllocError) -> BuildFault {
        BuildFault::Memory
    }
}
