//! Texts of lines: fields with single blanks between them, and a line feed after each line. What is written so
//! is read again, field by field, by the cursors of `input_core`.
#![tactic(auto)]

ghost use Rattle.std.specs.Prelude.{◌≡◌, ◌<◌, ◌^◌, ◌++◌, ◌∷◌, [], ℕ, List, Some, decimal, true, IfOk, OnOk};
ghost use Rattle.std.specs.List.{list_all};
ghost use Rattle.input_core.specs.Lines.{is_field, number_of};
ghost use Rattle.input_core.specs.Rows.{unread};
ghost use Rattle.text_lines.specs.Written.{joined, written, unread_of};

use input_core::Memory;
use itoa::Buffer;

/// Adds a field and a blank.
pub fn push_field(text: &mut Vec<u8>, field: &[u8]) -> Result<(), Memory>
    ensures { OnOk result (text.new.items ≡ text.old.items ++ (field.now ++ 32 ∷ [])) }
{
    text.extend_from_slice(field)?;
    push_blank(text)
}

fn push_blank(text: &mut Vec<u8>) -> Result<(), Memory>
    ensures { OnOk result (text.new.items ≡ text.old.items ++ 32 ∷ []) }
{
    text.extend_from_slice(b" ")?;
    Ok(())
}

/// Adds the last field of a line, and the line feed.
pub fn push_last(text: &mut Vec<u8>, field: &[u8]) -> Result<(), Memory>
    ensures { OnOk result (text.new.items ≡ text.old.items ++ (field.now ++ 10 ∷ [])) }
{
    text.extend_from_slice(field)?;
    text.extend_from_slice(b"\n")?;
    Ok(())
}

/// Adds a number as a field, and a blank.
pub fn push_number(text: &mut Vec<u8>, number: u32) -> Result<(), Memory>
    ensures { OnOk result (text.new.items ≡ text.old.items ++ (decimal number ++ 32 ∷ [])) }
{
    let mut buffer = Buffer::new();
    push_field(text, buffer.format(number).as_bytes())
}

/// Adds a number as the last field of a line, and the line feed.
pub fn push_last_number(text: &mut Vec<u8>, number: u32) -> Result<(), Memory>
    ensures { OnOk result (text.new.items ≡ text.old.items ++ (decimal number ++ 10 ∷ [])) }
{
    let mut buffer = Buffer::new();
    push_last(text, buffer.format(number).as_bytes())
}

/// Adds a blank and a field.
pub fn push_next(text: &mut Vec<u8>, field: &[u8]) -> Result<(), Memory>
    ensures { OnOk result (text.new.items ≡ text.old.items ++ 32 ∷ field.now) }
{
    push_blank(text)?;
    text.extend_from_slice(field)?;
    Ok(())
}

/// Adds a blank and a number as a field.
pub fn push_next_number(text: &mut Vec<u8>, number: u32) -> Result<(), Memory>
    ensures { OnOk result (text.new.items ≡ text.old.items ++ 32 ∷ decimal number) }
{
    let mut buffer = Buffer::new();
    push_next(text, buffer.format(number).as_bytes())
}

/// What is read of a written text are the fields of its lines, and a number below a thousand million is read as
/// it was written.
pub fn read_back_laws()
    ensures lines { (lines : List (List (List ℕ))) → list_all (list_all is_field) lines ≡ true → unread (written lines) ≡ unread_of lines }
    ensures numbers { (n : ℕ) → n < 10 ^ 9 → number_of (decimal n) ≡ Some n }
{}
