ghost use Rattle.std.specs.Prelude.{◌≡◌};
ghost use Rattle.run_core.specs.Outside.{shelved, KeepsBut};
ghost use Rattle.rooms_cmd.specs.Run.{AnswerIs, StatusIs, NoPutFailed};
ghost use Rattle.rooms_cmd.specs.Steps.{PutExplains};

use input_core::{PutFault, Shelf};
use run_core::{Answer, Stop};

/// The bytes of a file, and what is answered once they are put.
#[derive(Drop)]
pub struct Draft {
    pub bytes: Vec<u8>,
    pub answer: Answer,
}

/// Puts the bytes under the name, and gives the answer where that went well.
pub fn put<S: Shelf>(draft: Draft, name: &str, shelf: &mut S) -> Result<Answer, Stop>
    ensures answers { AnswerIs (PutExplains (shelved S.tells S.held S.piece_faults S.put_faults shelf.old shelf.new) draft name.now) result }
    ensures keeps { KeepsBut name.now (shelved S.tells S.held S.piece_faults S.put_faults shelf.old shelf.new) }
    ensures puts { StatusIs (NoPutFailed (S.put_faults shelf.old) (S.put_faults shelf.new)) result }
    ensures reads { S.piece_faults shelf.new ≡ S.piece_faults shelf.old }
{
    match shelf.put(name, draft.bytes.as_slice()) {
        Ok(()) => Ok(draft.answer),
        Err(PutFault::Fault) => Err(Stop::NotPut),
        Err(PutFault::Memory) => Err(Stop::Memory),
    }
}
