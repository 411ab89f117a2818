ghost use Rattle.std.specs.Prelude.{◌≡◌, ◌≤◌, ◌<◌, ◌+◌, ◌-◌, ◌^◌, ℕ, IfOk, IfErr, OnOk, length};
ghost use Rattle.input_core.specs.Reading.{ReadFails, IsWhole, NoneFailed};
ghost use Rattle.input_core.specs.Taking.{TakesWhole, TakesFront, TakesPiece, LeavesTaker};
ghost use Rattle.input_core.specs.Shelf.{OnlyReads};

use crate::faults::Memory;
use crate::shelf::Shelf;
use crate::taker::Taker;
use std::alloc::{AllocError, Global};
use thiserror::Error;

/// Why a name was not read.
#[derive(Clone, Copy, Debug, PartialEq, Eq, Error)]
pub enum ReadRefusal {
    /// A piece could not be read.
    #[error("a read failed")]
    Fault,
    /// The name holds more bytes than the limit; so many were taken.
    #[error("more bytes than may be read: {taken} were taken")]
    TooLong { taken: u64 },
    /// Want of memory.
    #[error("out of memory")]
    Memory,
}

impl From<AllocError> for ReadRefusal {
    ghost use Rattle.input_core.specs.declared.read.ReadRefusal.TheVariants.{Memory};
    ghost use Rattle.std.specs.Prelude.{◌≡◌};

    ghost from_gives = { λ _ e. e ≡ Memory };

    fn from(_: AllocError) -> ReadRefusal {
        ReadRefusal::Memory
    }
}

impl From<Memory> for ReadRefusal {
    ghost use Rattle.input_core.specs.declared.read.ReadRefusal.TheVariants as refusals;
    ghost use Rattle.std.specs.Prelude.{◌≡◌};

    ghost from_gives = { λ _ e. e ≡ refusals.Memory };

    fn from(_: Memory) -> ReadRefusal {
        ReadRefusal::Memory
    }
}

/// The most bytes of an input file.
pub const INPUT_LIMIT: u64 = 16_777_216;

/// How many bytes are asked for at a time.
const PIECE: usize = 65_536;

/// All that a name holds, if it is no longer than the limit. `TooLong` comes exactly where one byte more than
/// the limit was taken. `Fault` comes only where the shelf's count of `piece` rose, or the shelf tells that it
/// holds no such name; with any other answer no call has failed. Whatever the answer, each name holds what it held.
pub fn read_all<S: Shelf>(
    alloc: Global,
    shelf: &mut S,
    name: &str,
    limit: u64,
) -> Result<Vec<u8>, ReadRefusal>
    requires { limit < 2 ^ 63 }
    ensures bytes { IfOk result (λ v. IsWhole (S.tells shelf.old) (S.held shelf.old name.now) limit v.items) }
    ensures cause { IfErr result (ReadFails (S.tells shelf.old) (S.held shelf.old name.now) (S.piece_faults shelf.old) (S.piece_faults shelf.new) limit) }
    ensures calls { NoneFailed (S.piece_faults shelf.old) (S.piece_faults shelf.new) result }
    ensures only { OnlyReads S.tells S.held S.piece_faults S.put_faults shelf.old shelf.new }
{
    let mut bytes = Vec::new(alloc);
    read_into(alloc, shelf, name, limit, &mut bytes)?;
    Ok(bytes)
}

/// Hands all that a name holds to a taker, if it is no longer than the limit, and answers how many bytes it is.
/// The shelf is asked as by `read_all`, and the refusals are its refusals; `Memory` comes also where `take` answered
/// it. No more bytes than the limit are handed over: after `Fault` and `TooLong` they are a front of what the name
/// holds, and after `Memory` nothing is known of what the taker stands for.
pub fn read_into<S: Shelf, T: Taker>(
    alloc: Global,
    shelf: &mut S,
    name: &str,
    limit: u64,
    taker: &mut T,
) -> Result<u64, ReadRefusal>
    requires { T.bytes_taken taker.old + limit ≤ 2 ^ 63 - 1 }
    ensures whole { IfOk result (TakesWhole (S.tells shelf.old) (S.held shelf.old name.now) limit (T.stands taker.old) (T.stands taker.new)) }
    ensures counted { IfOk result (λ count. T.bytes_taken taker.new ≡ T.bytes_taken taker.old + count) }
    ensures kept { OnOk result (T.kept taker.new ≡ T.kept taker.old) }
    ensures cause { IfErr result (ReadFails (S.tells shelf.old) (S.held shelf.old name.now) (S.piece_faults shelf.old) (S.piece_faults shelf.new) limit) }
    ensures front { IfErr result (TakesFront (S.tells shelf.old) (S.held shelf.old name.now) limit (T.stands taker.old) (T.stands taker.new)) }
    ensures calls { NoneFailed (S.piece_faults shelf.old) (S.piece_faults shelf.new) result }
    ensures only { OnlyReads S.tells S.held S.piece_faults S.put_faults shelf.old shelf.new }
{
    let mut piece = piece_buffer(alloc)?;
    let mut done: u64 = 0;
    'pieces: while done <= limit {
        let want = PIECE.min((limit - done) as usize + 1);
        let count = hand_piece(shelf, name, limit, done, &mut piece[..want], taker)?;
        if count == 0 {
            return Ok(done);
        }
        done += count as u64;
    }
    Err(ReadRefusal::TooLong { taken: done })
}

/// Room for one piece.
fn piece_buffer(alloc: Global) -> Result<Vec<u8>, AllocError>
    ensures { IfOk result (λ v. length v.items ≡ PIECE) }
{
    vec![in alloc; 0u8; PIECE]
}

/// Hands over the piece that begins behind the bytes that are done, and answers how long it is.
fn hand_piece<S: Shelf, T: Taker>(
    shelf: &mut S,
    name: &str,
    limit: u64,
    done: u64,
    piece: &mut [u8],
    taker: &mut T,
) -> Result<usize, ReadRefusal>
    requires room { 0 < length piece.old }
    requires fits { done + length piece.old ≤ limit + 1 }
    requires few { T.bytes_taken taker.old + (limit - done) ≤ 2 ^ 63 - 1 }
    requires small { limit < 2 ^ 63 }
    ensures handed { IfOk result (TakesPiece (S.tells shelf.old) (S.held shelf.old name.now) limit done (T.stands taker.old) (T.stands taker.new)) }
    ensures counted { IfOk result (λ count. T.bytes_taken taker.new ≡ T.bytes_taken taker.old + count) }
    ensures kept { OnOk result (T.kept taker.new ≡ T.kept taker.old) }
    ensures cause { IfErr result (ReadFails (S.tells shelf.old) (S.held shelf.old name.now) (S.piece_faults shelf.old) (S.piece_faults shelf.new) limit) }
    ensures left { IfErr result (LeavesTaker (T.stands taker.old) (T.stands taker.new)) }
    ensures calls { NoneFailed (S.piece_faults shelf.old) (S.piece_faults shelf.new) result }
    ensures only { OnlyReads S.tells S.held S.piece_faults S.put_faults shelf.old shelf.new }
{
    match shelf.piece(name, done, piece) {
        Ok(count) if count as u64 > limit - done => Err(ReadRefusal::TooLong {
            taken: done + count as u64,
        }),
        Ok(count) => {
            taker.take(&piece[..count])?;
            Ok(count)
        }
        Err(_) => Err(ReadRefusal::Fault),
    }
}
