ghost use Rattle.std.specs.Prelude.{◌≡◌, ◌≤◌, ◌++◌, List, ℕ, Bool, Option, length, take, IfOk, OnOk, IfErr, IsTrue};
ghost use Rattle.input_core.specs.Causes.{next_count};
ghost use Rattle.input_core.specs.Shelf.{GivesPiece, PieceCause, OnlyReads, Puts, PutFails, Writes};
ghost use Rattle.input_core.specs.declared.shelf.PutFault.TheVariants.{Memory};

use std::alloc::AllocError;

/// A piece could not be read.
#[derive(Clone, Copy)]
pub struct Fault;

/// Why bytes were not put or written.
#[derive(Clone, Copy, PartialEq, Eq)]
pub enum PutFault {
    Fault,
    Memory,
}

impl From<AllocError> for PutFault {
    ghost from_gives = { λ _ e. e ≡ Memory };

    fn from(_: AllocError) -> PutFault {
        PutFault::Memory
    }
}

/// Named files. It counts the faults of its two methods apart; a count never falls, and stands still at the
/// greatest `u64`.
pub trait Shelf {
    /// Whether it tells what its names hold.
    ghost tells: { Self → Bool };

    /// What a name holds, where the shelf tells it; `None` where there is no such name.
    ghost held: { Self → List ℕ → Option (List ℕ) };

    /// How often `piece` has failed.
    ghost piece_faults: { Self → ℕ };

    /// How often `put` has failed.
    ghost put_faults: { Self → ℕ };

    /// Puts bytes that stand from place `at` into the front of `buf`, and answers how many. With a `buf` that is not
    /// empty it answers 0 only at the end of what the name holds. `Fault` comes only where the count rose, or the
    /// shelf tells that it holds no such name, and then the count stays.
    fn piece(&mut self, name: &str, at: u64, buf: &mut [u8]) -> Result<usize, Fault>
        ensures within { IfOk result (λ n. n ≤ length buf.new) }
        ensures bytes { IsTrue (tells self.old) → GivesPiece (held self.old name.now) at buf.new result }
        ensures cause { PieceCause (tells self.old) (held self.old name.now) (piece_faults self.old) (piece_faults self.new) result }
        ensures only { OnlyReads tells held piece_faults put_faults self.old self.new };

    /// Makes the name hold exactly the bytes. `Fault` comes only where the count rose. After a refusal nothing is
    /// known of that name. The other names keep what they hold.
    fn put(&mut self, name: &str, bytes: &[u8]) -> Result<(), PutFault>
        ensures put { Puts (tells self.old) (tells self.new) (held self.old) (held self.new) name.now bytes.now result }
        ensures cause { IfErr result (PutFails (put_faults self.old) (put_faults self.new)) }
        ensures later { put_faults self.old ≤ put_faults self.new }
        ensures kept { OnOk result (put_faults self.new ≡ put_faults self.old) }
        ensures piece_count { piece_faults self.new ≡ piece_faults self.old };
}

/// Where text goes. It counts its calls and its faults as a `Shelf` counts faults.
pub trait Sink {
    /// All bytes written so far, where the sink tells them.
    ghost written: { Self → Option (List ℕ) };

    /// How often `write` was called.
    ghost calls: { Self → ℕ };

    /// How often `write` has failed.
    ghost faults: { Self → ℕ };

    /// Appends all of the bytes. After `Fault` a front of them was appended and the count rose; after `Memory`
    /// nothing was appended.
    fn write(&mut self, bytes: &[u8]) -> Result<(), PutFault>
        ensures bytes { Writes (written self.old) (written self.new) bytes.now result }
        ensures counted { calls self.new ≡ next_count (calls self.old) }
        ensures cause { IfErr result (PutFails (faults self.old) (faults self.new)) }
        ensures later { faults self.old ≤ faults self.new }
        ensures kept { OnOk result (faults self.new ≡ faults self.old) };
}
