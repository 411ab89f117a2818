ghost use Rattle.std.specs.Prelude.{◌≡◌, IfOk};
ghost use Rattle.reports.specs.Lines.{over_limit_text, limit_name};

use input_core::Memory;
use itoa::Buffer;
use problem_core::{Limit, LimitKind};
use std::alloc::Global;

/// Which limit was passed.
pub fn over_limit(alloc: Global, limit: Limit) -> Result<Vec<u8>, Memory>
    ensures { IfOk result (λ v. v.items ≡ over_limit_text limit) }
{
    let mut buffer = Buffer::new();
    let mut text = Vec::from_slice(alloc, b"bad input: ")?;
    text.extend_from_slice(limit_name(limit.kind))?;
    text.extend_from_slice(b" ")?;
    text.extend_from_slice(buffer.format(limit.count).as_bytes())?;
    text.extend_from_slice(b" over ")?;
    text.extend_from_slice(buffer.format(limit.limit).as_bytes())?;
    text.extend_from_slice(b"\n")?;
    Ok(text)
}

fn limit_name(kind: LimitKind) -> &'static [u8]
    ensures { result.now ≡ limit_name kind }
{
    match kind {
        LimitKind::Meetings => b"meetings",
        LimitKind::CourseMeetings => b"meetings of a course",
        LimitKind::Patterns => b"patterns",
        LimitKind::Rows => b"rows",
    }
}
