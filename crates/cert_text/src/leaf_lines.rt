ghost use Rattle.std.specs.Prelude.{◌≡◌, ◌<◌, ◌^◌, [], length, not, IfOk, OnOk, Some, MatchOption, slice_get, None};
ghost use Rattle.cert_text.specs.Sharing.{has_line, place_of_line, with_line};

use indexmap::IndexSet;
use std::alloc::{AllocError, Global};
use std::marker::Model;

/// Different leaf lines in the order in which they came, each found by a look-up. Contracts see the list of
/// their bytes.
#[derive(Drop)]
pub struct LeafLines {
    set: IndexSet<Vec<u8>>,
}

impl Model for LeafLines {
    ghost use Rattle.std.specs.Prelude.{List, ℕ, map};

    ghost Value = { List (List ℕ) };

    ghost view = { λ t. map (λ key. key.items) t.set.keys };
}

impl LeafLines {
    /// No lines.
    pub fn new(alloc: Global) -> LeafLines
        ensures { result ≡ [] }
    {
        LeafLines {
            set: IndexSet::new(alloc),
        }
    }

    /// Adds a line at the end, where it is a new one, and says whether it is.
    pub fn add(&mut self, line: Vec<u8>) -> Result<bool, AllocError>
        ensures fresh { IfOk result (λ fresh. fresh ≡ not (has_line line.items self.old)) }
        ensures lines { OnOk result (self.new ≡ with_line self.old line.items) }
    {
        let Ok(fresh) = self.set.insert(line) else {
            return Err(AllocError);
        };
        Ok(fresh)
    }

    /// The number of a line, from 0.
    pub fn find(&self, line: &[u8]) -> Option<usize>
        ensures { result ≡ place_of_line line.now self.now }
    {
        self.set.get_index_of(line)
    }

    /// The line with a number, from 0.
    pub fn get(&self, number: usize) -> Option<&[u8]>
        ensures { MatchOption result (slice_get self.now number ≡ None) (λ line. slice_get self.now number ≡ Some line.now) }
    {
        match self.set.get_index(number) {
            Some(line) => Some(line.as_slice()),
            None => None,
        }
    }

    /// How many lines there are.
    pub fn len(&self) -> usize
        ensures count { result ≡ length self.now }
        ensures small { result < 2 ^ 63 }
    {
        self.set.len()
    }
}
