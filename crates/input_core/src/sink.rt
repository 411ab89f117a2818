ghost use Rattle.std.specs.Prelude.{◌≡◌, ◌≤◌, ◌≢◌, ◌<◌, ℕ, ◌++◌, IfErr, OnOk, length, Some, None, [], List, IfOk};
ghost use Rattle.input_core.specs.Shelf.{PutFails, Writes};
ghost use Rattle.input_core.specs.Causes.{next_count};
ghost use Rattle.input_core.specs.Memory.{SinkListed, bytes_before};

use crate::shelf::{PutFault, Sink};
use std::alloc::Global;
use values::Items;

/// Standard output. It tells nothing of what it was written.
#[derive(Drop)]
pub struct OutSink<'a, R> {
    rt: &'a R,
    calls: u64,
    faults: u64,
}

impl<'a, R: Print> OutSink<'a, R> {
    /// Writes to the standard output of the runtime. No call and no fault is counted yet.
    pub fn new(rt: &'a R) -> OutSink<'a, R>
        ensures calls { result.calls ≡ 0 }
        ensures faults { result.faults ≡ 0 }
    {
        OutSink {
            rt,
            calls: 0,
            faults: 0,
        }
    }
}

impl<R: Print> Sink for OutSink<'_, R> {
    ghost written = { λ _. None };

    ghost calls = { λ s. s.calls };

    ghost faults = { λ s. s.faults };

    fn write(&mut self, bytes: &[u8]) -> Result<(), PutFault> {
        self.calls = self.calls.saturating_add(1);
        match write_all_of(self.rt, bytes) {
            Ok(()) => Ok(()),
            Err(()) => {
                self.faults = self.faults.saturating_add(1);
                Err(PutFault::Fault)
            }
        }
    }
}

/// Writes piece after piece. A write that takes nothing is a fault.
fn write_all_of<R: Print>(rt: &R, bytes: &[u8]) -> Result<(), ()> {
    let mut at = 0;
    while at < bytes.len() {
        match rt.write_some(&bytes[at..]) {
            Ok(0) => return Err(()),
            Ok(count) => at += count,
            Err(_) => return Err(()),
        }
    }
    Ok(())
}

/// A sink in memory. Its calls are numbered from 1, and those whose numbers are listed fail, each after as many
/// bytes as the list says.
#[derive(Drop)]
pub struct MemSink {
    bytes: Vec<u8>,
    failing: Vec<(u64, usize)>,
    calls: u64,
    faults: u64,
}

impl MemSink {
    /// A sink with nothing written, no call made and no fault counted. Of two entries for one call the first counts.
    pub fn new(alloc: Global, failing: Vec<(u64, usize)>) -> MemSink
        ensures empty { result.bytes.items ≡ [] }
        ensures failing { result.failing ≡ failing }
        ensures calls { result.calls ≡ 0 }
        ensures faults { result.faults ≡ 0 }
    {
        MemSink {
            bytes: Vec::new(alloc),
            failing,
            calls: 0,
            faults: 0,
        }
    }

    /// All bytes written so far.
    pub fn bytes(&self) -> &[u8]
        ensures { result.now ≡ self.now.bytes.items }
    {
        self.bytes.as_slice()
    }
}

impl Sink for MemSink {
    ghost written = { λ s. Some s.bytes.items };

    ghost calls = { λ s. s.calls };

    ghost faults = { λ s. s.faults };

    fn write(&mut self, bytes: &[u8]) -> Result<(), PutFault>
        ensures bytes { Writes (Some self.old.bytes.items) (Some self.new.bytes.items) bytes.now result }
        ensures counted { self.new.calls ≡ next_count self.old.calls }
        ensures cause { IfErr result (PutFails self.old.faults self.new.faults) }
        ensures later { self.old.faults ≤ self.new.faults }
        ensures kept { OnOk result (self.new.faults ≡ self.old.faults) }
        ensures failing { self.new.failing ≡ self.old.failing }
        ensures listed { SinkListed (bytes_before self.old.failing.items self.new.calls) self.old.bytes.items bytes.now self.new.bytes.items result }
    {
        self.calls = self.calls.saturating_add(1);
        let Some(count) = listed(self.failing.as_slice(), self.calls) else {
            self.bytes.extend_from_slice(bytes)?;
            return Ok(());
        };
        let count = count.min(bytes.len());
        self.bytes.extend_from_slice(&bytes[..count])?;
        self.faults = self.faults.saturating_add(1);
        Err(PutFault::Fault)
    }
}

/// After how many bytes the call with this number fails, where it is listed.
fn listed(failing: &[(u64, usize)], call: u64) -> Option<usize>
    ensures { result ≡ bytes_before failing.now call }
{
    for entry in failing {
        if entry.0 == call {
            return Some(entry.1);
        }
    }
    None
}
