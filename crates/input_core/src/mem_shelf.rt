ghost use Rattle.std.specs.Prelude.{◌≡◌, ◌≤◌, ◌<◌, ◌-◌, ℕ, List, Option, Some, None, length, min, option_map, IfOk, IfErr, OnOk, IsTrue, true};
ghost use Rattle.std.specs.List.{list_any};
ghost use Rattle.input_core.specs.Causes.{next_count};
ghost use Rattle.input_core.specs.Memory.{held_by, same_number, FailsListed, listed_piece};
ghost use Rattle.input_core.specs.Shelf.{IsPiece, GivesPiece, PieceCause, OnlyReads, Puts, PutFails};

use crate::shelf::{Fault, PutFault, Shelf};
use std::alloc::Global;
use values::Items;

/// A shelf in memory. Its calls are numbered from 1 over both methods, and those whose numbers are listed fail.
#[derive(Drop)]
pub struct MemShelf {
    alloc: Global,
    files: Items<(String, Vec<u8>)>,
    failing: Items<u64>,
    calls: u64,
    piece_faults: u64,
    put_faults: u64,
}

impl MemShelf {
    /// A shelf that holds these files, with no call made and no fault counted. Of two files of one name the later
    /// one counts.
    pub fn new(alloc: Global, files: Vec<(String, Vec<u8>)>, failing: Vec<u64>) -> MemShelf
        ensures files { result.files ≡ files.items }
        ensures failing { result.failing ≡ failing.items }
        ensures calls { result.calls ≡ 0 }
        ensures piece_faults { result.piece_faults ≡ 0 }
        ensures put_faults { result.put_faults ≡ 0 }
    {
        MemShelf {
            alloc,
            files: Items::from(files),
            failing: Items::from(failing),
            calls: 0,
            piece_faults: 0,
            put_faults: 0,
        }
    }

    /// Counts a call, and says whether it is to fail.
    fn fails(&mut self) -> bool
        ensures answer { result ≡ list_any (same_number self.new.calls) self.old.failing }
        ensures calls { self.new.calls ≡ next_count self.old.calls }
        ensures files { self.new.files ≡ self.old.files }
        ensures failing { self.new.failing ≡ self.old.failing }
        ensures pieces { self.new.piece_faults ≡ self.old.piece_faults }
        ensures puts { self.new.put_faults ≡ self.old.put_faults }
    {
        self.calls = self.calls.saturating_add(1);
        let call = self.calls;
        self.failing.as_slice().iter().any(|number| call == *number)
    }
}

impl Shelf for MemShelf {
    ghost tells = { λ _. true };

    ghost held = { λ s. held_by s.files };

    ghost piece_faults = { λ s. s.piece_faults };

    ghost put_faults = { λ s. s.put_faults };

    fn piece(&mut self, name: &str, at: u64, buf: &mut [u8]) -> Result<usize, Fault>
        ensures within { IfOk result (λ n. n ≤ length buf.new) }
        ensures bytes { IsTrue true → GivesPiece (held_by self.old.files name.now) at buf.new result }
        ensures cause { PieceCause true (held_by self.old.files name.now) self.old.piece_faults self.new.piece_faults result }
        ensures only { OnlyReads (λ (s : MemShelf). true) (λ s. held_by s.files) (λ s. s.piece_faults) (λ s. s.put_faults) self.old self.new }
        ensures numbered { self.new.calls ≡ next_count self.old.calls }
        ensures failing { self.new.failing ≡ self.old.failing }
        ensures listed { result ≡ listed_piece (list_any (same_number self.new.calls) self.old.failing) (held_by self.old.files name.now) at (length buf.new) }
    {
        let fails = self.fails();
        let Some(bytes) = newest(self.files.as_slice(), name) else {
            return Err(Fault);
        };
        if fails {
            self.piece_faults = self.piece_faults.saturating_add(1);
            return Err(Fault);
        }
        Ok(copy_from(bytes, at as usize, buf))
    }

    fn put(&mut self, name: &str, bytes: &[u8]) -> Result<(), PutFault>
        ensures put { Puts true true (held_by self.old.files) (held_by self.new.files) name.now bytes.now result }
        ensures cause { IfErr result (PutFails self.old.put_faults self.new.put_faults) }
        ensures later { self.old.put_faults ≤ self.new.put_faults }
        ensures kept { OnOk result (self.new.put_faults ≡ self.old.put_faults) }
        ensures piece_count { self.new.piece_faults ≡ self.old.piece_faults }
        ensures numbered { self.new.calls ≡ next_count self.old.calls }
        ensures failing { self.new.failing ≡ self.old.failing }
        ensures listed { FailsListed (list_any (same_number self.new.calls) self.old.failing) result }
    {
        if self.fails() {
            self.put_faults = self.put_faults.saturating_add(1);
            return Err(PutFault::Fault);
        }
        let name = String::from_str(self.alloc, name)?;
        let bytes = Vec::from_slice(self.alloc, bytes)?;
        self.files.push((name, bytes))?;
        Ok(())
    }
}

/// What the newest file of that name holds.
fn newest<'a>(files: &'a [(String, Vec<u8>)], name: &str) -> Option<&'a [u8]>
    ensures { option_map (λ bytes. bytes.now) result ≡ held_by files.now name.now }
{
    let mut found: Option<&'a [u8]> = None;
    for file in files {
        if file.0.as_str() == name {
            found = Some(file.1.as_slice());
        }
    }
    found
}

/// Copies what stands from a place on, as much as there is and as fits, and answers how much.
fn copy_from(bytes: &[u8], at: usize, buf: &mut [u8]) -> usize
    ensures piece { IsPiece bytes.now at buf.new result }
    ensures count { result ≡ min (length bytes.now - at) (length buf.new) }
{
    let from = at.min(bytes.len());
    let rest = &bytes[from..];
    let count = rest.len().min(buf.len());
    buf[..count].copy_from_slice(&rest[..count]);
    count
}
