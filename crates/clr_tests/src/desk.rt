//! Runs of a desk over tables in memory. Commands and replies are lines, as in `gridclear run`.
use crate::at_desk::{AtDesk, at_new_desk};
use crate::worked::chain;
use clr_desk::{Desk, DeskFault};
use clr_rules::{Command, Reply};
use clr_store::Store;
use clr_text::{command_of, reply_text};
use clr_worked::network;
use sqlite::Alter;
use std::alloc::Global;
use std::fmt::Write;
use std::process::Abort;
use std::test::Fail;

/// Commands that are carried out at a desk, and their replies.
#[derive(Drop)]
struct Run<'a> {
    commands: &'a str,
    replies: &'a str,
}

impl<'a> AtDesk for Run<'a> {
    fn go<R: Abort, S: Alter + Drop>(
        &self,
        rt: &R,
        alloc: Global,
        mut desk: Desk<Store<S>>,
    ) -> Result<(), Fail> {
        expect_replies(rt, alloc, &mut desk, self)
    }
}

/// A desk gives these replies.
fn expect_replies<R: Abort, S: Alter + Drop>(
    rt: &R,
    alloc: Global,
    desk: &mut Desk<Store<S>>,
    expected: &Run<'_>,
) -> Result<(), Fail> {
    let mut replies = String::new(alloc);
    carry_all(rt, alloc, desk, expected.commands, &mut replies)?;
    assert_eq!(rt; replies.as_str(), expected.replies);
    Ok(())
}

/// Carries out all commands, and adds the replies. Where that is out of memory once, the fault is
/// counted, the replies before it are kept, and the run goes on after them.
fn carry_all<R: Abort, S: Alter + Drop>(
    rt: &R,
    alloc: Global,
    desk: &mut Desk<Store<S>>,
    commands: &str,
    replies: &mut String,
) -> Result<(), Fail> {
    let mut fault = carry_on(alloc, desk, commands, replies)?;
    if fault == Some(DeskFault::NoMemory) {
        assert_eq!(rt; desk.faults(), 1);
        fault = carry_on(alloc, desk, commands, replies)?;
    }
    match fault {
        Some(fault) => Err(fault.into()),
        None => Ok(()),
    }
}

/// Carries out the commands after those that have a reply, and adds the replies.
fn carry_on<S: Alter + Drop>(
    alloc: Global,
    desk: &mut Desk<Store<S>>,
    commands: &str,
    replies: &mut String,
) -> Result<Option<DeskFault>, Fail> {
    let answered = replies.as_str().lines().count();
    let run = desk.run(commands_after(alloc, commands, answered)?);
    add_lines(alloc, &run.replies, replies)?;
    Ok(run.fault)
}

/// The commands of these lines, but for the first few, which are answered.
fn commands_after(alloc: Global, lines: &str, answered: usize) -> Result<Vec<Command>, Fail> {
    let mut commands = Vec::new(alloc);
    for line in lines.lines().skip(answered) {
        commands.push(command_of(alloc, line.as_bytes())?)?;
    }
    Ok(commands)
}

/// Adds these replies, each on a line.
fn add_lines(alloc: Global, replies: &[Reply], lines: &mut String) -> Result<(), Fail> {
    for reply in replies {
        let text = reply_text(alloc, reply)?;
        writeln!(lines, "{text}")?;
    }
    Ok(())
}

/// The order of JONES/1, its first five steps and a grant; then the sixth, and a grant.
const GRANTS: &str = r#"{"at":100,"by":"JONES","do":"request","section":"L2"}
{"at":101,"by":"OPS","clearance":"JONES/1","do":"order","points":["S2","S3"],"steps":["OPEN S2","OPEN S3","BLOCK S2","BLOCK S3","TAG S2","TAG S3"]}
{"at":102,"by":"OPS","clearance":"JONES/1","do":"instruct","step":1}
{"at":103,"by":"REED","clearance":"JONES/1","do":"repeat","step":1,"text":"OPEN S2"}
{"at":104,"by":"REED","clearance":"JONES/1","do":"report","done":true,"step":1}
{"at":105,"by":"OPS","clearance":"JONES/1","do":"instruct","step":2}
{"at":106,"by":"REED","clearance":"JONES/1","do":"repeat","step":2,"text":"OPEN S3"}
{"at":107,"by":"REED","clearance":"JONES/1","do":"report","done":true,"step":2}
{"at":108,"by":"OPS","clearance":"JONES/1","do":"instruct","step":3}
{"at":109,"by":"REED","clearance":"JONES/1","do":"repeat","step":3,"text":"BLOCK S2"}
{"at":110,"by":"REED","clearance":"JONES/1","do":"report","done":true,"step":3}
{"at":111,"by":"OPS","clearance":"JONES/1","do":"instruct","step":4}
{"at":112,"by":"REED","clearance":"JONES/1","do":"repeat","step":4,"text":"BLOCK S3"}
{"at":113,"by":"REED","clearance":"JONES/1","do":"report","done":true,"step":4}
{"at":114,"by":"OPS","clearance":"JONES/1","do":"instruct","step":5}
{"at":115,"by":"REED","clearance":"JONES/1","do":"repeat","step":5,"text":"TAG S2"}
{"at":116,"by":"REED","clearance":"JONES/1","do":"report","done":true,"step":5}
{"at":117,"by":"OPS","clearance":"JONES/1","do":"grant"}
{"at":118,"by":"OPS","clearance":"JONES/1","do":"instruct","step":6}
{"at":119,"by":"REED","clearance":"JONES/1","do":"repeat","step":6,"text":"TAG S3"}
{"at":120,"by":"REED","clearance":"JONES/1","do":"report","done":true,"step":6}
{"at":121,"by":"OPS","clearance":"JONES/1","do":"grant"}
"#;

const GRANTED: &str =
    r#"{"card":{"clearance":"JONES/1","done":0,"holder":"JONES","phase":"Requested","round":0,"steps":0},"reply":"accepted"}
{"card":{"clearance":"JONES/1","done":0,"holder":"JONES","phase":"Ordered","round":1,"steps":6},"reply":"accepted"}
{"card":{"clearance":"JONES/1","done":0,"holder":"JONES","phase":"Ordered","round":1,"steps":6},"reply":"accepted"}
{"card":{"clearance":"JONES/1","done":0,"holder":"JONES","phase":"Ordered","round":1,"steps":6},"reply":"accepted"}
{"card":{"clearance":"JONES/1","done":1,"holder":"JONES","phase":"Ordered","round":1,"steps":6},"reply":"accepted"}
{"card":{"clearance":"JONES/1","done":1,"holder":"JONES","phase":"Ordered","round":1,"steps":6},"reply":"accepted"}
{"card":{"clearance":"JONES/1","done":1,"holder":"JONES","phase":"Ordered","round":1,"steps":6},"reply":"accepted"}
{"card":{"clearance":"JONES/1","done":2,"holder":"JONES","phase":"Ordered","round":1,"steps":6},"reply":"accepted"}
{"card":{"clearance":"JONES/1","done":2,"holder":"JONES","phase":"Ordered","round":1,"steps":6},"reply":"accepted"}
{"card":{"clearance":"JONES/1","done":2,"holder":"JONES","phase":"Ordered","round":1,"steps":6},"reply":"accepted"}
{"card":{"clearance":"JONES/1","done":3,"holder":"JONES","phase":"Ordered","round":1,"steps":6},"reply":"accepted"}
{"card":{"clearance":"JONES/1","done":3,"holder":"JONES","phase":"Ordered","round":1,"steps":6},"reply":"accepted"}
{"card":{"clearance":"JONES/1","done":3,"holder":"JONES","phase":"Ordered","round":1,"steps":6},"reply":"accepted"}
{"card":{"clearance":"JONES/1","done":4,"holder":"JONES","phase":"Ordered","round":1,"steps":6},"reply":"accepted"}
{"card":{"clearance":"JONES/1","done":4,"holder":"JONES","phase":"Ordered","round":1,"steps":6},"reply":"accepted"}
{"card":{"clearance":"JONES/1","done":4,"holder":"JONES","phase":"Ordered","round":1,"steps":6},"reply":"accepted"}
{"card":{"clearance":"JONES/1","done":5,"holder":"JONES","phase":"Ordered","round":1,"steps":6},"reply":"accepted"}
{"number":23,"refusal":"STEPS_LEFT","reply":"refused"}
{"card":{"clearance":"JONES/1","done":5,"holder":"JONES","phase":"Ordered","round":1,"steps":6},"reply":"accepted"}
{"card":{"clearance":"JONES/1","done":5,"holder":"JONES","phase":"Ordered","round":1,"steps":6},"reply":"accepted"}
{"card":{"clearance":"JONES/1","done":6,"holder":"JONES","phase":"Ordered","round":1,"steps":6},"reply":"accepted"}
{"card":{"clearance":"JONES/1","done":6,"holder":"JONES","phase":"Granted","round":1,"steps":6},"reply":"accepted"}
"#;

#[test]
fn grant_with_a_step_left(rt: HostRuntime) -> Result<(), Fail> {
    let run = Run {
        commands: GRANTS,
        replies: GRANTED,
    };
    at_new_desk(&rt, rt.alloc(), network(rt.alloc())?, &run)
}

/// The order of JONES/1 in the middle of a chain.
const IN_CHAIN: &str = r#"{"at":100,"by":"JONES","do":"request","section":"C2500"}
{"at":101,"by":"OPS","clearance":"JONES/1","do":"order","points":["P2500"],"steps":["OPEN P2500","BLOCK P2500","TAG P2500"]}
{"by":"OPS","do":"jumper","from":"C0001","lockable":true,"point":"J1","remote":false,"to":"X1"}
{"by":"OPS","do":"jumper","from":"C0001","lockable":true,"point":"J1","remote":false,"to":"C5000"}
"#;

const SOURCE_INSIDE: &str =
    r#"{"card":{"clearance":"JONES/1","done":0,"holder":"JONES","phase":"Requested","round":0,"steps":0},"reply":"accepted"}
{"number":12,"refusal":"SOURCE_INSIDE","reply":"refused","section":"C0001"}
{"number":34,"refusal":"NETWORK_FULL","reply":"refused"}
{"point":"J1","reply":"added"}
"#;

/// The fence of C2500 that is cut at P2500 alone goes back to the source. There is no room for a
/// section more, and some for a point.
#[test]
fn source_at_the_end_of_a_long_chain(rt: HostRuntime) -> Result<(), Fail> {
    let run = Run {
        commands: IN_CHAIN,
        replies: SOURCE_INSIDE,
    };
    at_new_desk(&rt, rt.alloc(), chain(rt.alloc(), 5000, 4999)??, &run)
}

const ONE_POINT_MORE: &str =
    r#"{"by":"OPS","do":"jumper","from":"C0001","lockable":true,"point":"J1","remote":false,"to":"C0003"}
"#;

const FULL: &str = r#"{"number":34,"refusal":"NETWORK_FULL","reply":"refused"}
"#;

#[test]
fn ten_thousand_points(rt: HostRuntime) -> Result<(), Fail> {
    let run = Run {
        commands: ONE_POINT_MORE,
        replies: FULL,
    };
    at_new_desk(&rt, rt.alloc(), chain(rt.alloc(), 5000, 10000)??, &run)
}

const FOR_JONES: &str = r#"{"at":100,"by":"JONES","do":"request","section":"L2"}
"#;

const FOR_KIM: &str = r#"{"at":100,"by":"KIM","do":"request","section":"L2"}
"#;

/// After the last number of JONES none is left, and KIM still gets one.
const NONE_IS_LEFT: &str = r#"{"number":4,"refusal":"TOO_MANY_CLEARANCES","reply":"refused"}
{"card":{"clearance":"KIM/1","done":0,"holder":"KIM","phase":"Requested","round":0,"steps":0},"reply":"accepted"}
"#;

/// JONES asks until all numbers are given, and once more; then KIM asks.
fn asked_for_all(alloc: Global) -> Result<String, Fail> {
    let mut commands = String::new(alloc);
    for _ in 1..=10000 {
        commands.push_str(FOR_JONES)?;
    }
    commands.push_str(FOR_KIM)?;
    Ok(commands)
}

/// The replies to that.
fn all_given(alloc: Global) -> Result<String, Fail> {
    let mut replies = String::new(alloc);
    for number in 1..10000 {
        writeln!(
            replies,
            r#"{{"card":{{"clearance":"JONES/{number}","done":0,"holder":"JONES","phase":"Requested","round":0,"steps":0}},"reply":"accepted"}}"#
        )?;
    }
    replies.push_str(NONE_IS_LEFT)?;
    Ok(replies)
}

#[test]
fn all_numbers_of_a_requester(rt: HostRuntime) -> Result<(), Fail> {
    let commands = asked_for_all(rt.alloc())?;
    let replies = all_given(rt.alloc())?;
    let run = Run {
        commands: commands.as_str(),
        replies: replies.as_str(),
    };
    at_new_desk(&rt, rt.alloc(), network(rt.alloc())?, &run)
}
