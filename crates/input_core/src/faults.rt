ghost use Rattle.std.specs.Prelude.{◌≡◌, ◌++◌, codes, decimal, IfOk};
ghost use Rattle.input_core.specs.Texts.{text_of_kind};

use itoa::Buffer;
use std::alloc::{AllocError, Global};

/// Want of memory.
#[derive(Clone, Copy, Debug)]
pub struct Memory;

impl From<AllocError> for Memory {
    ghost from_gives = { λ _ _. Unit {0} };

    fn from(_: AllocError) -> Memory {
        Memory
    }
}

/// What is wrong with a line. On one line the kinds are tested in this order: `Byte`, `After`, `Keyword` or
/// `Count`, `Fields`; then the fields from left to right, each for `NameLength`, `Number`, `Range`, `Dash`,
/// `UnknownCourse`, `UnknownRoom`; then `Repeated`, `RepeatedMeeting`, `TooMany`, `Order`.
#[derive(Clone, Copy, Debug, PartialEq, Eq)]
pub enum LineKind {
    /// A byte is none of tab, blank and the printable ones.
    Byte,
    /// The first field is not a word that may stand here.
    Keyword,
    /// The number of fields is wrong.
    Fields,
    /// A name has more than 64 bytes.
    NameLength,
    /// A field for a number is not one.
    Number,
    /// A number is outside its limits.
    Range,
    /// A room is named `-`.
    Dash,
    /// No course has that name.
    UnknownCourse,
    /// No room has that name.
    UnknownRoom,
    /// A course or a room is named twice, or a preference is given twice for one pair.
    Repeated,
    /// A course has a second meeting in one slot.
    RepeatedMeeting,
    /// There are more than the limit.
    TooMany { limit: u32 },
    /// A threshold is not above the one before it.
    Order,
    /// The file names a version that is not known.
    Version,
    /// A section has another number of lines than its header.
    Count { wanted: u32, found: u32 },
    /// The file ends too early.
    Missing,
    /// A line with fields stands after the last one that may.
    After,
    /// The line is no line of a certificate.
    Text,
}

/// The first faulty line of a text, numbered from 1, and the first kind of fault in it.
#[derive(Clone, Copy, Debug, PartialEq, Eq)]
pub struct LineFault {
    pub line: u64,
    pub kind: LineKind,
}

/// Why a text gives no value.
#[derive(Clone, Copy, Debug, PartialEq, Eq)]
pub enum TextFault {
    Line(LineFault),
    Memory,
}

impl From<AllocError> for TextFault {
    ghost use Rattle.std.specs.Prelude.{◌≡◌};
    ghost use Rattle.input_core.specs.declared.faults.TextFault.TheVariants.{Memory};

    ghost from_gives = { λ _ e. e ≡ Memory };

    fn from(_: AllocError) -> TextFault {
        TextFault::Memory
    }
}

impl From<Memory> for TextFault {
    ghost use Rattle.std.specs.Prelude.{◌≡◌};
    ghost use Rattle.input_core.specs.declared.faults.TextFault.TheVariants as faults;

    ghost from_gives = { λ _ e. e ≡ faults.Memory };

    fn from(_: Memory) -> TextFault {
        TextFault::Memory
    }
}

impl From<LineFault> for TextFault {
    ghost use Rattle.std.specs.Prelude.{◌≡◌};
    ghost use Rattle.input_core.specs.declared.faults.TextFault.TheVariants.{Line};

    ghost from_gives = { λ f e. e ≡ Line f };

    fn from(fault: LineFault) -> TextFault {
        TextFault::Line(fault)
    }
}

/// What is printed for a kind of fault.
pub fn kind_text(alloc: Global, kind: LineKind) -> Result<Vec<u8>, Memory>
    ensures { IfOk result (λ v. v.items ≡ text_of_kind kind) }
{
    match kind {
        LineKind::Byte => copied(alloc, b"byte not allowed"),
        LineKind::Keyword => copied(alloc, b"unexpected line"),
        LineKind::Fields => copied(alloc, b"wrong number of fields"),
        LineKind::NameLength => copied(alloc, b"name too long"),
        LineKind::Number => copied(alloc, b"not a number"),
        LineKind::Range => copied(alloc, b"number out of range"),
        LineKind::Dash => copied(alloc, b"room named -"),
        LineKind::UnknownCourse => copied(alloc, b"unknown course"),
        LineKind::UnknownRoom => copied(alloc, b"unknown room"),
        LineKind::Repeated => copied(alloc, b"name repeated"),
        LineKind::RepeatedMeeting => copied(alloc, b"meeting repeated"),
        LineKind::TooMany { limit } => more_than(alloc, limit),
        LineKind::Order => copied(alloc, b"threshold not rising"),
        LineKind::Version => copied(alloc, b"version not known"),
        LineKind::Count { wanted, found } => counted(alloc, wanted, found),
        LineKind::Missing => copied(alloc, b"file ends"),
        LineKind::After => copied(alloc, b"line after END."),
        LineKind::Text => copied(alloc, b"text"),
    }
}

fn copied(alloc: Global, text: &[u8]) -> Result<Vec<u8>, Memory>
    ensures { IfOk result (λ v. v.items ≡ text.now) }
{
    Ok(Vec::from_slice(alloc, text)?)
}

fn more_than(alloc: Global, limit: u32) -> Result<Vec<u8>, Memory>
    ensures { IfOk result (λ v. v.items ≡ codes "more than " ++ decimal limit) }
{
    let mut buffer = Buffer::new();
    let mut text = Vec::from_slice(alloc, b"more than ")?;
    text.extend_from_slice(buffer.format(limit).as_bytes())?;
    Ok(text)
}

fn counted(alloc: Global, wanted: u32, found: u32) -> Result<Vec<u8>, Memory>
    ensures { IfOk result (λ v. v.items ≡ codes "count " ++ decimal found ++ codes ", header says " ++ decimal wanted) }
{
    let mut buffer = Buffer::new();
    let mut text = Vec::from_slice(alloc, b"count ")?;
    text.extend_from_slice(buffer.format(found).as_bytes())?;
    text.extend_from_slice(b", header says ")?;
    text.extend_from_slice(buffer.format(wanted).as_bytes())?;
    Ok(text)
}
