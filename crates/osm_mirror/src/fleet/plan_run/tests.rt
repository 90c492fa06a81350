//! Plans that are run: their replies, and the files of their write lines.
use super::PlanRun;
use crate::Reply;
use crate::fleet::plan::{Plan, read_plan};
use std::alloc::Global;
use std::str;

/// A plan of two mirrors.
const PLAN: &[u8] =
    b"latest\nfull\ntake 0 a\npass 0 1 o5c\ntake 1 b\nrestart 1 opl\nwrite 1 opl x\nwrite 0 opl y\n";

/// The versions of the files.
const FIRST: &[u8] = b"n1 v1 dV c0 t i0 u T x1 y1\n";

const SECOND: &[u8] = b"n1 v2 dD c0 t i0 u T x y\n";

const FAULTY: &[u8] = b"n1 v1 x1\n";

/// The number of refused events, and the files of the write lines, each ended by a line `end`.
fn run_text(alloc: Global, files: &[&[u8]], strict: bool) -> String {
    let mut text = String::new(alloc);
    if let Ok(plan) = read_plan(alloc, PLAN)
        && files.len() == plan.steps.len()
        && let Ok(run) = PlanRun::of_plan(alloc, &plan, files)
    {
        push_run(&mut text, &run, &plan, strict);
    }
    text
}

/// Appends the number of refused events, and the files of the write lines.
fn push_run(text: &mut String, run: &PlanRun, plan: &Plan, strict: bool) {
    let taken = run.replies.iter().filter(|it| **it == Reply::Taken).count();
    let _ = writeln!(text, "{taken} taken, {} refused", run.refused());
    for write in run.writes(plan, strict) {
        if write.mirror < run.fleet.len()
            && let Ok(file) = run.file_of(write)
            && let Ok(lines) = str::from_utf8(file.as_slice())
        {
            let _ = write!(text, "{lines}end\n");
        }
    }
}

#[test]
fn plans_are_run(rt: HostRuntime) {
    let none: &[u8] = b"";
    for (files, strict, text) in [
        (
            [FIRST, none, SECOND, none],
            false,
            "4 taken, 0 refused\nn1 v1 dV c0 t i0 u T x1 y1\nn1 v2 dD c0 t i0 u T x y\nend\n\
            n1 v1 dV c0 t i0 u T x1 y1\nend\n",
        ),
        (
            [FAULTY, none, SECOND, none],
            false,
            "3 taken, 1 refused\nn1 v2 dD c0 t i0 u T x y\nend\nend\n",
        ),
        ([FAULTY, none, SECOND, none], true, "3 taken, 1 refused\n"),
    ] {
        assert_eq!(rt; run_text(rt.alloc(), &files, strict).as_str(), text);
    }
}
