ghost use Rattle.ctt_reader.specs.Promised.{IsInstance};

use ctt_reader::{Instance, read_ctt, write_ctt};
use std::alloc::Global;
use std::process::Abort;
use std::test::Fail;

const SHORT: &[u8] =
    b"Name: x\nCourses: 1\nRooms: 1\nDays: 1\nPeriods_per_day: 1\nCurricula: 0\nConstraints: 0\n\nCOURSES:\nC1 T1 1 1 10\n\nROOMS:\nR1 20\n\nCURRICULA:\n\nUNAVAILABILITY_CONSTRAINTS:\n\nEND.\n";

const WEEK: &[u8] =
    b"Name:\tWeek\tone\r\nCourses:\t12\r\nRooms:\t5\r\nDays:\t5\r\nPeriods_per_day:\t4\r\nCurricula:\t2\r\nConstraints:\t2\r\n\r\nCOURSES:\r\nc01\tt01\t4\t3\t18\r\nc02\tt02\t3\t3\t15\r\nc03\tt03\t4\t4\t35\r\nc04\tt04\t3\t3\t38\r\nc05\tt05\t3\t3\t30\r\nc06\tt06\t4\t4\t55\r\nc07\tt07\t3\t3\t50\r\nc08\tt08\t3\t3\t90\r\nc09\tt09\t3\t1\t100\r\nc10\tt10\t4\t4\t150\r\nc11\tt11\t3\t1\t180\r\nc12\tt12\t3\t3\t36\r\n\r\nROOMS:\r\nS1\t20\r\nS2\t40\r\nM1\t60\r\nM2\t100\r\nH1\t200\r\n\r\nCURRICULA:\r\nq1\t3\tc01\tc04\tc05\r\nq2\t2\tc10\tc11\r\n\r\nUNAVAILABILITY_CONSTRAINTS:\r\nc01\t4\t3\r\nc08\t0\t0\r\n\r\nEND.\r\n";

/// An instance without a title, with curricula and constraints.
const UNTITLED: &[u8] =
    b"Name:\nCourses: 2\nRooms: 1\nDays: 2\nPeriods_per_day: 3\nCurricula: 2\nConstraints: 1\n\nCOURSES:\n- T1 1 1 10\nC2 T2 1000 0 1000000\n\nROOMS:\nR1 0\n\nCURRICULA:\nq 2 C2 -\nq 0\n\nUNAVAILABILITY_CONSTRAINTS:\nC2 1 2\n\nEND.\n";

/// What is looked at in an instance.
#[derive(Clone, Copy)]
enum Look {
    Short,
    Week,
    /// That it is written as it stands here.
    Written(&'static [u8]),
}

/// Reads the text, and looks at the instance. It alone owns one.
fn judge(rt: &impl Abort, alloc: Global, text: &[u8], look: Look) -> Result<(), Fail> {
    let instance = read_ctt(alloc, text)?;
    look_at(rt, alloc, &instance, look)
}

fn look_at(rt: &impl Abort, alloc: Global, instance: &Instance, look: Look) -> Result<(), Fail>
    requires { IsInstance instance.now }
{
    match look {
        Look::Short => look_at_short(rt, instance),
        Look::Week => look_at_week(rt, instance),
        Look::Written(text) => {
            let written = write_ctt(alloc, instance)?;
            assert!(rt; written.as_slice() == text);
            Ok(())
        }
    }
}

fn look_at_short(rt: &impl Abort, i: &Instance) -> Result<(), Fail> {
    assert!(rt; i.title.len() == 1);
    assert!(rt; i.courses.len() == 1);
    let course = &i.courses.as_slice()[0];
    assert!(rt; course.name.as_str() == "C1");
    assert!(rt; course.teacher.as_str() == "T1");
    assert!(rt; (course.lectures, course.min_days, course.students) == (1, 1, 10));
    assert!(rt; i.rooms.len() == 1);
    let room = &i.rooms.as_slice()[0];
    assert!(rt; room.name.as_str() == "R1");
    assert!(rt; room.capacity == 20);
    assert!(rt; (i.days, i.periods) == (1, 1));
    Ok(())
}

fn look_at_week(rt: &impl Abort, i: &Instance) -> Result<(), Fail> {
    assert!(rt; i.title.len() == 2);
    assert!(rt; (i.courses.len(), i.rooms.len(), i.days, i.periods) == (12, 5, 5, 4));
    assert!(rt; i.courses.as_slice()[10].students == 180);
    assert!(rt; i.curricula.len() == 2);
    assert!(rt; i.curricula.as_slice()[0].members.as_slice() == [0, 3, 4].as_slice());
    assert!(rt; i.constraints.as_slice() == [(0, 4, 3), (7, 0, 0)].as_slice());
    Ok(())
}

#[test]
fn reads_the_short_instance(rt: HostRuntime) -> Result<(), Fail> {
    judge(&rt, rt.alloc(), SHORT, Look::Short)
}

#[test]
fn reads_a_week_with_tabs_and_returns(rt: HostRuntime) -> Result<(), Fail> {
    judge(&rt, rt.alloc(), WEEK, Look::Week)
}

#[test]
fn writes_what_it_read(rt: HostRuntime) -> Result<(), Fail> {
    judge(&rt, rt.alloc(), SHORT, Look::Written(SHORT))?;
    judge(&rt, rt.alloc(), UNTITLED, Look::Written(UNTITLED))
}
