ghost use Rattle.std.specs.Prelude.{◌≡◌, IfOk};
ghost use Rattle.run_core.specs.Texts.{read_fault_text, too_long_text, bad_line_text};

use input_core::{LineFault, Memory, kind_text};
use itoa::Buffer;
use std::alloc::Global;

/// That the file of this name was not read.
pub fn read_fault(alloc: Global, name: &str) -> Result<Vec<u8>, Memory>
    ensures { IfOk result (λ v. v.items ≡ read_fault_text name.now) }
{
    let mut text = Vec::from_slice(alloc, b"read fault ")?;
    text.extend_from_slice(name.as_bytes())?;
    text.extend_from_slice(b"\n")?;
    Ok(text)
}

/// That the file of this name has too many bytes.
pub fn too_long(alloc: Global, name: &str) -> Result<Vec<u8>, Memory>
    ensures { IfOk result (λ v. v.items ≡ too_long_text name.now) }
{
    let mut text = Vec::from_slice(alloc, b"bad input ")?;
    text.extend_from_slice(name.as_bytes())?;
    text.extend_from_slice(b": bytes 16777217 over 16777216\n")?;
    Ok(text)
}

/// What the first faulty line of the file of this name is.
pub fn bad_line(alloc: Global, name: &str, fault: LineFault) -> Result<Vec<u8>, Memory>
    ensures { IfOk result (λ v. v.items ≡ bad_line_text name.now fault) }
{
    let mut buffer = Buffer::new();
    let kind = kind_text(alloc, fault.kind)?;
    let mut text = Vec::from_slice(alloc, b"bad input ")?;
    text.extend_from_slice(name.as_bytes())?;
    text.extend_from_slice(b" line ")?;
    text.extend_from_slice(buffer.format(fault.line).as_bytes())?;
    text.extend_from_slice(b": ")?;
    text.extend_from_slice(kind.as_slice())?;
    text.extend_from_slice(b"\n")?;
    Ok(text)
}
