ghost use Rattle.std.specs.Prelude.{◌≡◌, ◌∷◌, [], ◌<◌, ◌≤◌, length, take, true, slice_index, MatchOption};
ghost use Rattle.cert_text.specs.Numbers.{cut, lacks};

use std::marker::Model;

/// The fields of a line from the left, with one blank between two; contracts see those that are left.
#[derive(Drop)]
pub struct Fields<'a> {
    rest: &'a [u8],
    more: bool,
}

impl<'a> Model for Fields<'a> {
    ghost use Rattle.std.specs.Prelude.{List, ℕ, [], if◌then◌else◌};
    ghost use Rattle.cert_text.specs.Numbers.{cut};

    ghost Value = { List (List ℕ) };

    ghost view = { λ f. if f.more then cut 32 f.rest.now else [] };
}

impl<'a> Fields<'a> {
    /// All fields of a line; a line without bytes has one, which is empty.
    pub fn new(line: &'a [u8]) -> Fields<'a>
        ensures { result ≡ cut 32 line.now }
    {
        Fields {
            rest: line,
            more: true,
        }
    }

    /// The next field, where one is left.
    pub fn next(&mut self) -> Option<&'a [u8]>
        ensures { MatchOption result ((self.old ≡ []) × (self.new ≡ [])) (λ field. self.old ≡ field.now ∷ self.new) }
    {
        if !self.more {
            return None;
        }
        let line = self.rest;
        let size = length_to(line, b' ');
        if size == line.len() {
            self.more = false;
            return Some(line);
        }
        let (field, _) = line.split_at(size);
        let (_, after) = line.split_at(size + 1);
        self.rest = after;
        Some(field)
    }
}

/// How many bytes stand before the first separator, or in all where there is none.
pub fn length_to(bytes: &[u8], separator: u8) -> usize
    ensures within { result ≤ length bytes.now }
    ensures before { lacks separator (take result bytes.now) ≡ true }
    ensures found { result < length bytes.now → slice_index bytes.now result ≡ separator }
{
    for (i, b) in bytes.iter().enumerate() {
        if *b == separator {
            return i;
        }
    }
    bytes.len()
}
