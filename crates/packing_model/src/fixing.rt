ghost use Rattle.std.specs.Prelude.{◌≡◌, ◌++◌, ◌∷◌, [], OnOk, OnErr, MatchOption};
ghost use Rattle.packing_model.specs.Fixings.{without_last};

use problem_core::Memory;
use std::alloc::Global;
use values::Items;

/// Patterns that are left out, and patterns that are taken.
#[derive(Drop)]
pub struct Fixing {
    /// The patterns that are left out.
    pub zero: Items<u32>,
    /// The patterns that are taken.
    pub one: Items<u32>,
}

impl Fixing {
    /// Nothing left out and nothing taken.
    pub fn empty(alloc: Global) -> Fixing
        ensures zero { result.zero ≡ [] }
        ensures one { result.one ≡ [] }
    {
        Fixing {
            zero: Items::new(alloc),
            one: Items::new(alloc),
        }
    }

    /// Leaves the pattern out. After a refusal for want of memory the fixing is as it was.
    pub fn add_zero(&mut self, pattern: u32) -> Result<(), Memory>
        ensures ok { OnOk result (self.new.zero ≡ self.old.zero ++ pattern ∷ []) }
        ensures err { OnErr result (self.new.zero ≡ self.old.zero) }
        ensures one { self.new.one ≡ self.old.one }
    {
        self.zero.push(pattern)?;
        Ok(())
    }

    /// Takes the pattern. After a refusal for want of memory the fixing is as it was.
    pub fn add_one(&mut self, pattern: u32) -> Result<(), Memory>
        ensures ok { OnOk result (self.new.one ≡ self.old.one ++ pattern ∷ []) }
        ensures err { OnErr result (self.new.one ≡ self.old.one) }
        ensures zero { self.new.zero ≡ self.old.zero }
    {
        self.one.push(pattern)?;
        Ok(())
    }

    /// Takes the last entry of the patterns that are left out away, where there is one.
    pub fn drop_zero(&mut self)
        ensures zero { self.new.zero ≡ without_last self.old.zero }
        ensures one { self.new.one ≡ self.old.one }
    {
        let _ = self.zero.pop();
    }

    /// Takes the last entry of the patterns that are taken away, where there is one.
    pub fn drop_one(&mut self)
        ensures one { self.new.one ≡ without_last self.old.one }
        ensures zero { self.new.zero ≡ self.old.zero }
    {
        let _ = self.one.pop();
    }
}
