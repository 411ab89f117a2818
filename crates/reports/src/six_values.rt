ghost use Rattle.std.specs.Prelude.{◌≡◌, ◌++◌, pos, neg_ℤ, IfOk, OnOk};
ghost use Rattle.std.specs.List.{AllByRecursion};
ghost use Rattle.problem_core.specs.Kept.{IsWithin};
ghost use Rattle.reports.specs.Lines.{value_line, value_lines};

use input_core::Memory;
use itoa::Buffer;
use std::alloc::{AllocError, Global};

/// The lines of six values, the fifth with its sign turned.
pub fn value_lines(alloc: Global, values: &[i64; 6]) -> Result<Vec<u8>, Memory>
    requires { AllByRecursion (IsWithin (pos 1000000000000)) values.now }
    ensures { IfOk result (λ v. v.items ≡ value_lines values.now) }
{
    let mut text = Vec::new(alloc);
    push_value(&mut text, b"event hours", values[0])?;
    push_value(&mut text, b"seated students", values[1])?;
    push_value(&mut text, b"seat utilisation", values[2])?;
    push_value(&mut text, b"room preference", values[3])?;
    push_value(&mut text, b"course rooms", turned(values[4]))?;
    push_value(&mut text, b"spare robustness", values[5])?;
    Ok(text)
}

/// The value with its sign turned.
pub(crate) fn turned(value: i64) -> i64
    requires { IsWithin (pos 1000000000000) value }
    ensures { result ≡ neg_ℤ value }
{
    -value
}

/// Adds the line of a value.
fn push_value(text: &mut Vec<u8>, name: &[u8], value: i64) -> Result<(), AllocError>
    ensures { OnOk result (text.new.items ≡ text.old.items ++ value_line name.now value) }
{
    let mut buffer = Buffer::new();
    text.extend_from_slice(name)?;
    text.extend_from_slice(b" ")?;
    text.extend_from_slice(buffer.format(value).as_bytes())?;
    text.extend_from_slice(b"\n")?;
    Ok(())
}
