ghost use Rattle.std.specs.Prelude.{◌≡◌, ◌<◌, ◌++◌, ◌∷◌, [], length, true, false, OnOk};
ghost use Rattle.std.specs.List.{list_all};
ghost use Rattle.input_core.specs.Lines.{is_graphic};
ghost use Rattle.ctt_reader.specs.Names.{has_name};
ghost use Rattle.measure_file.specs.Steps.{Numbers};

use crate::faults::EntryFault;
use ctt_reader::Names;
use input_core::{LineKind, Memory, text_of_field};
use std::alloc::Global;
use std::marker::Model;
use values::{Items, Text};

/// The most features.
const LIMIT: u32 = 100;

/// The names of features in the order of first appearance, each found by a look-up. Contracts see the list of them.
#[derive(Drop)]
pub struct Features<'a> {
    alloc: Global,
    names: Names<'a>,
    texts: Items<Text>,
}

impl<'a> Model for Features<'a> {
    ghost use Rattle.std.specs.Prelude.{List, ℕ, ◌≡◌, ◌≤◌, length};

    ghost Value = { List (List ℕ) };

    ghost view = { λ f. f.texts };

    ghost invariant = { λ f. (f.names ≡ f.texts) × (length f.texts ≤ 100) };
}

impl<'a> Features<'a> {
    /// No features.
    pub fn new(alloc: Global) -> Features<'a>
        ensures { result ≡ [] }
    {
        Features {
            alloc,
            names: Names::new(alloc),
            texts: Items::new(alloc),
        }
    }

    /// The number of the feature with this name, which is added where it is new.
    pub fn number(&mut self, name: &'a [u8]) -> Result<u32, EntryFault>
        requires { list_all is_graphic name.now ≡ true }
        ensures { Numbers self.old name.entry.now result self.new }
    {
        if let Some(number) = self.names.find(name) {
            return Ok(number);
        }
        let number = self.texts.len() as u32;
        if number >= LIMIT {
            return Err(EntryFault::Kind(LineKind::TooMany { limit: LIMIT }));
        }
        self.add(name)?;
        Ok(number)
    }

    /// Adds a new name.
    fn add(&mut self, name: &'a [u8]) -> Result<(), Memory>
        requires graphic { list_all is_graphic name.now ≡ true }
        requires fresh { has_name name.now self.old ≡ false }
        requires few { length self.old < 100 }
        ensures { OnOk result (self.new ≡ self.old ++ name.entry.now ∷ []) }
    {
        let text = text_of_field(self.alloc, name)?;
        self.texts.push(text)?;
        if self.names.add(name).is_err() {
            self.texts.pop();
            return Err(Memory);
        }
        Ok(())
    }

    /// The names.
    pub fn into_texts(self) -> Items<Text>
        ensures { result ≡ self.entry }
    {
        let Features {
            alloc: _,
            names: _,
            texts,
        } = self;
        texts
    }
}
