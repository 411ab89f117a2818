ghost use Rattle.std.specs.Prelude.{◌≡◌, ◌≤◌, ◌+◌, ◌-◌, ◌^◌, ◌++◌, List, ℕ, length, OnOk};

use crate::faults::Memory;

/// What takes bytes in pieces. It stands for lists of bytes, by a relation on what it keeps, and stores no history.
pub trait Taker {
    /// What it keeps whatever it takes.
    ghost Kept: { Type 0 } = { Unit {0} };

    /// The bytes that it stands for.
    ghost stands: { Self → List ℕ → Type 0 };

    /// How many bytes it took.
    ghost bytes_taken: { Self → ℕ };

    /// What it keeps whatever it takes.
    ghost kept: { Self → Self.Kept };

    /// How many bytes it took.
    fn taken(&self) -> u64
        ensures { result ≡ bytes_taken self.now };

    /// Takes the next piece. After a refusal nothing is known of what it stands for.
    fn take(&mut self, piece: &[u8]) -> Result<(), Memory>
        requires { bytes_taken self.old + length piece.now ≤ 2 ^ 63 - 1 }
        ensures stands { OnOk result ((bytes : List ℕ) → stands self.old bytes → stands self.new (bytes ++ piece.now)) }
        ensures counted { OnOk result (bytes_taken self.new ≡ bytes_taken self.old + length piece.now) }
        ensures kept { OnOk result (kept self.new ≡ kept self.old) };
}

/// A list of bytes stands for itself.
impl Taker for Vec<u8> {
    ghost use Rattle.std.specs.Prelude.{◌≡◌, length};

    ghost Kept = { Unit {0} };

    ghost stands = { λ v bytes. v.items ≡ bytes };

    ghost bytes_taken = { λ v. length v.items };

    ghost kept = { λ _. record {} };

    fn taken(&self) -> u64 {
        self.len() as u64
    }

    fn take(&mut self, piece: &[u8]) -> Result<(), Memory> {
        self.extend_from_slice(piece)?;
        Ok(())
    }
}
