ghost use Rattle.std.specs.Prelude.{◌≡◌, ◌++◌, ◌<◌, ◌^◌, IfOk, OnOk};
ghost use Rattle.itc_score.specs.Texts.{usage_text, count_line, hard_lines, soft_lines, score_text};
ghost use Rattle.itc_score.specs.Score.{soft_total};

use crate::counts::ScoreCounts;
use input_core::Memory;
use itoa::Buffer;
use std::alloc::{AllocError, Global};

/// How the program is called.
pub fn usage(alloc: Global) -> Result<Vec<u8>, Memory>
    ensures { IfOk result (λ v. v.items ≡ usage_text) }
{
    Ok(Vec::from_slice(alloc, b"usage:\nscore INSTANCE SOLUTION\n")?)
}

/// The ten lines of a score.
pub fn score_text(alloc: Global, s: ScoreCounts) -> Result<Vec<u8>, Memory>
    requires { soft_total s < 2 ^ 64 }
    ensures { IfOk result (λ v. v.items ≡ score_text s) }
{
    let mut text = Vec::new(alloc);
    push_hard(&mut text, s)?;
    push_soft(&mut text, s)?;
    Ok(text)
}

/// Adds the lines of the hard violations.
fn push_hard(text: &mut Vec<u8>, s: ScoreCounts) -> Result<(), AllocError>
    ensures { OnOk result (text.new.items ≡ text.old.items ++ hard_lines s) }
{
    push_count(text, b"lectures missing", s.missing)?;
    push_count(text, b"unroomed", s.unroomed)?;
    push_count(text, b"room occupancy", s.occupancy)?;
    push_count(text, b"conflicts", s.conflicts)?;
    push_count(text, b"availability", s.availability)?;
    Ok(())
}

/// Adds the lines of the soft costs, and of their total.
fn push_soft(text: &mut Vec<u8>, s: ScoreCounts) -> Result<(), AllocError>
    requires { soft_total s < 2 ^ 64 }
    ensures { OnOk result (text.new.items ≡ text.old.items ++ soft_lines s) }
{
    push_count(text, b"room capacity", s.capacity)?;
    push_count(text, b"minimum working days", s.days)?;
    push_count(text, b"curriculum compactness", s.compactness)?;
    push_count(text, b"room stability", s.stability)?;
    push_count(text, b"soft total", soft_total(s))?;
    Ok(())
}

/// The sum of the soft costs.
fn soft_total(s: ScoreCounts) -> u64
    requires { soft_total s < 2 ^ 64 }
    ensures { result ≡ soft_total s }
{
    s.capacity + s.days + s.compactness + s.stability
}

/// Adds the line of a count.
fn push_count(text: &mut Vec<u8>, name: &[u8], count: u64) -> Result<(), AllocError>
    ensures { OnOk result (text.new.items ≡ text.old.items ++ count_line name.now count) }
{
    let mut buffer = Buffer::new();
    text.extend_from_slice(name)?;
    text.extend_from_slice(b" ")?;
    text.extend_from_slice(buffer.format(count).as_bytes())?;
    text.extend_from_slice(b"\n")?;
    Ok(())
}
