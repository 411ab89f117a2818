//! Pages of timetables, worked by hand.
ghost use Rattle.ctt_reader.specs.Promised.{IsInstance};

use ctt_reader::{Instance, read_ctt};
use input_core::{MemShelf, MemSink};
use std::alloc::Global;
use std::process::Abort;
use std::test::Fail;
use timed_solution::read_times;
use week_page::{run_week, week_page};

/// Four courses whose names mean something in a page, a room of 20 seats, and a day of two periods. The first two
/// courses are in the one curriculum; the first has as many students as the room has seats, and the second one more.
const NAMES: &[u8] =
    b"Name: a <script>\nCourses: 4\nRooms: 1\nDays: 1\nPeriods_per_day: 2\nCurricula: 1\nConstraints: 0\n\nCOURSES:\n<script> T 1 1 20\n&amp; T 1 1 21\n\"q\" T 2 1 5\nit's T 1 1 7\n\nROOMS:\nR> 20\n\nCURRICULA:\nq<1> 2 &amp; <script>\n\nUNAVAILABILITY_CONSTRAINTS:\n\nEND.\n";

/// The first two share the room in the first period, in the order of the lines; the last has no room.
const SHARED: &[u8] = b"\"q\" R> 0 1\n<script> R> 0 0\n&amp; R> 0 0\nit's 0 1\n";

/// The page from its body on.
const BODY: &[u8] =
    b"<body>\n<h1>Timetable: a &lt;script&gt;</h1>\n<section>\n<h2>Day 0</h2>\n<div>\n<table>\n<thead>\n<tr><th>Room</th><th>Period 0</th><th>Period 1</th></tr>\n</thead>\n<tbody>\n<tr><th>R&gt;<small>20 seats</small></th><td class=\"x\"><em>Clash of 2 courses</em><p class=\"k0\"><b>&lt;script&gt;</b><small>20 students</small><i>q&lt;1&gt;</i></p><p class=\"k0\"><b>&amp;amp;</b><small>21 students</small><i>q&lt;1&gt;</i><em>Over the 20 seats</em></p></td><td><p class=\"n\"><b>&quot;q&quot;</b><small>5 students</small></p></td></tr>\n</tbody>\n</table>\n</div>\n</section>\n<h2>Meetings without a room: 1</h2>\n<ul>\n<li>it&#39;s: day 0, period 1</li>\n</ul>\n<h2>Courses</h2>\n<div>\n<table>\n<thead>\n<tr><th>Course</th><th>Meetings</th></tr>\n</thead>\n<tbody>\n<tr><td><p class=\"k0\"><b>&lt;script&gt;</b><small>20 students</small><i>q&lt;1&gt;</i></p></td><td><span>day 0, period 0, R&gt;</span></td></tr>\n<tr><td><p class=\"k0\"><b>&amp;amp;</b><small>21 students</small><i>q&lt;1&gt;</i></p></td><td><span>day 0, period 0, R&gt;</span></td></tr>\n<tr><td><p class=\"n\"><b>&quot;q&quot;</b><small>5 students</small></p></td><td><span>day 0, period 1, R&gt;</span></td></tr>\n<tr><td><p class=\"n\"><b>it&#39;s</b><small>7 students</small></p></td><td><span>day 0, period 1, no room</span></td></tr>\n</tbody>\n</table>\n</div>\n</body>\n</html>\n";

/// That the page of the solution begins as a page does and ends with this text.
fn judge(
    rt: &impl Abort,
    alloc: Global,
    i: &Instance,
    solution: &[u8],
    end: &[u8],
) -> Result<(), Fail>
    requires { IsInstance i.now }
{
    let t = read_times(alloc, i, solution)?;
    let page = week_page(alloc, i, &t)?;
    assert!(rt; page.as_slice().starts_with(b"<!DOCTYPE html>\n"));
    assert!(rt; page.as_slice().ends_with(end));
    Ok(())
}

/// A name is no tag; the second course is over the seats and the first is not; two share a room; one has none.
#[test]
fn shows_who_is_where(rt: HostRuntime) -> Result<(), Fail> {
    let alloc = rt.alloc();
    let i = read_ctt(alloc, NAMES)?;
    judge(&rt, alloc, &i, SHARED, BODY)
}

/// That the words, over one file of the name `i` with these bytes, end with this status and text.
fn judge_run(
    rt: &impl Abort,
    alloc: Global,
    words: &[&str],
    bytes: &[u8],
    status: u8,
    text: &[u8],
) -> Result<(), Fail> {
    let mut given = Vec::new(alloc);
    for word in words {
        given.push(String::from_str(alloc, word)?)?;
    }
    let mut files = Vec::new(alloc);
    files.push((
        String::from_str(alloc, "i")?,
        Vec::from_slice(alloc, bytes)?,
    ))?;
    let mut shelf = MemShelf::new(alloc, files, Vec::new(alloc));
    let mut out = MemSink::new(alloc, Vec::new(alloc));
    let ended = run_week(alloc, given.as_slice(), &mut shelf, &mut out);
    assert!(rt; ended.number() == status);
    assert!(rt; out.bytes() == text);
    Ok(())
}

#[test]
fn ends_as_the_words_and_files_say(rt: HostRuntime) -> Result<(), Fail> {
    let alloc = rt.alloc();
    judge_run(
        &rt,
        alloc,
        &["i"],
        NAMES,
        2,
        b"usage:\nweek INSTANCE SOLUTION\n",
    )?;
    judge_run(&rt, alloc, &["n", "i"], NAMES, 5, b"read fault n\n")?;
    judge_run(&rt, alloc, &["i", "t"], NAMES, 5, b"read fault t\n")?;
    judge_run(
        &rt,
        alloc,
        &["i", "i"],
        b"",
        4,
        b"bad input i line 1: file ends\n",
    )
}
