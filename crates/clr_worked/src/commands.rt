//! The first commands of the worked order.
use clr_rules::Command;
use clr_text::command_of;
use std::alloc::Global;
use std::test::Fail;

/// JONES asks for L2, the order of JONES/1, and its first step. Each is accepted.
pub const FIRST_STEP: [&str; 5] = [
    r#"{"at":100,"by":"JONES","do":"request","section":"L2"}"#,
    r#"{"at":101,"by":"OPS","clearance":"JONES/1","do":"order","points":["S2","S3"],"steps":["OPEN S2","OPEN S3","BLOCK S2","BLOCK S3","TAG S2","TAG S3"]}"#,
    r#"{"at":102,"by":"OPS","clearance":"JONES/1","do":"instruct","step":1}"#,
    r#"{"at":103,"by":"REED","clearance":"JONES/1","do":"repeat","step":1,"text":"OPEN S2"}"#,
    r#"{"at":104,"by":"REED","clearance":"JONES/1","do":"report","done":true,"step":1}"#,
];

/// Some of these commands: n of them, after the first few.
pub fn some_commands(alloc: Global, first: usize, count: usize) -> Result<Vec<Command>, Fail> {
    let mut commands = Vec::new(alloc);
    for line in FIRST_STEP.iter().skip(first).take(count) {
        commands.push(command_of(alloc, line.as_bytes())?)?;
    }
    Ok(commands)
}
