// The report of a trap.
use std::alloc::Global;
use std::test::Fail;
use vale_base::{FrameAt, Frames, Spot, Text, TrapInfo, TrapKind};
use vale_trap::report;

// The frames of a trap, from the innermost out.
const FRAMES: &[(&str, u32, u32)] = &[
    ("drop Child", 10, 1),
    ("drop []Child", 10, 2),
    ("main", 1, 1),
];

fn frames(alloc: Global) -> Result<Frames, Fail> {
    let mut list = Vec::new(alloc);
    for &(what, line, col) in FRAMES {
        list.push(FrameAt {
            what: Text::from_slice(alloc, what.as_bytes())?,
            at: Spot { line, col },
        })?;
    }
    Ok(Frames::from_vec(list))
}

const REPORT: &str =
    "trap: dead reference at 4:18\nin drop Child\ncalled at 10:1 in drop []Child\ncalled at 10:2 in main\nand 12 more\n";

#[test]
fn a_report_names_the_frames_from_the_innermost_out(rt: HostRuntime) -> Result<(), Fail> {
    let info = TrapInfo {
        kind: TrapKind::DeadReference,
        at: Spot { line: 4, col: 18 },
        frames: frames(rt.alloc())?,
        more: 12,
    };
    let text = report(rt.alloc(), &info)?;
    assert!(rt; text.as_slice() == REPORT.as_bytes());
    Ok(())
}
