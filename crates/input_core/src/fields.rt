ghost use Rattle.std.specs.Prelude.{◌≡◌, IfOk, MatchResult, Ok, Err, true};
ghost use Rattle.std.specs.List.{list_all};
ghost use Rattle.input_core.specs.Lines.{is_graphic};
ghost use Rattle.input_core.specs.Fields.{name_of, number_in, number_below};

use crate::faults::{LineKind, Memory};
use crate::lines::read_number;
use std::alloc::Global;
use values::Text;

/// The most bytes of a name.
pub const NAME_LIMIT: usize = 64;

/// The field as a name of at most 64 bytes, or `NameLength`.
pub fn read_name(field: &[u8]) -> Result<&[u8], LineKind>
    ensures { MatchResult result (λ name. name_of field.now ≡ Ok name.now) (λ kind. name_of field.now ≡ Err kind) }
{
    if field.len() > NAME_LIMIT {
        Err(LineKind::NameLength)
    } else {
        Ok(field)
    }
}

/// The number that the field spells: `Number` where it spells none, `Range` where it is below `low` or above `high`.
pub fn read_number_in(low: u32, high: u32, field: &[u8]) -> Result<u32, LineKind>
    ensures { result ≡ number_in low high field.now }
{
    match read_number(field) {
        None => Err(LineKind::Number),
        Some(number) if low <= number && number <= high => Ok(number),
        Some(_) => Err(LineKind::Range),
    }
}

/// The number that the field spells: `Number` where it spells none, `Range` where it is not below the limit.
pub fn read_number_below(limit: u32, field: &[u8]) -> Result<u32, LineKind>
    ensures { result ≡ number_below limit field.now }
{
    match read_number(field) {
        None => Err(LineKind::Number),
        Some(number) if number < limit => Ok(number),
        Some(_) => Err(LineKind::Range),
    }
}

/// The field as a text.
pub fn text_of_field(alloc: Global, field: &[u8]) -> Result<Text, Memory>
    requires { list_all is_graphic field.now ≡ true }
    ensures { IfOk result (λ text. text ≡ field.now) }
{
    let bytes = Vec::from_slice(alloc, field)?;
    let text = String::from_utf8(bytes).unwrap();
    Ok(Text::from(text))
}
