ghost use Rattle.std.specs.Prelude.{◌≡◌, [], ◌++◌, OnOk};
ghost use Rattle.cert_text.specs.Kept.{IsKept};

use std::alloc::{AllocError, Global};
use std::marker::Model;

/// The most bytes of a line of a certificate, without its line feed: those of a leaf with 5,005 terms.
pub const LINE_LIMIT: usize = 165_200;

/// What is kept of a line whose end has not come: its bytes, or, where they are too many for a line of a certificate,
/// as many of them as show that. Contracts see the list of the bytes that are kept.
#[derive(Drop)]
pub struct LineRest {
    bytes: Vec<u8>,
}

impl Model for LineRest {
    ghost use Rattle.std.specs.Prelude.{List, ℕ, ◌≤◌, ◌+◌, length};
    ghost use Rattle.cert_text.specs.declared.line_rest.TheConstants.{LINE_LIMIT};

    ghost Value = { List ℕ };

    ghost view = { λ r. r.bytes.items };

    ghost invariant = { λ r. length r.bytes.items ≤ LINE_LIMIT + 1 };
}

impl LineRest {
    /// Before the first byte.
    pub fn new(alloc: Global) -> LineRest
        ensures { result ≡ [] }
    {
        LineRest {
            bytes: Vec::new(alloc),
        }
    }

    /// Adds bytes at the end.
    pub fn add(&mut self, bytes: &[u8]) -> Result<(), AllocError>
        ensures { OnOk result (IsKept (self.old ++ bytes.now) self.new) }
    {
        let room = LINE_LIMIT + 1 - self.bytes.len();
        let count = room.min(bytes.len());
        self.bytes.extend_from_slice(&bytes[..count])
    }

    /// The bytes that are kept.
    pub fn as_slice(&self) -> &[u8]
        ensures { result.now ≡ self.now }
    {
        self.bytes.as_slice()
    }

    /// Begins the next line.
    pub fn clear(&mut self)
        ensures { self.new ≡ [] }
    {
        self.bytes.clear();
    }
}
