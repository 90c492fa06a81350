//! Plans read, in the forms of docs/FORMATS.md and of the program's table, and written back.
use crate::{Keep, Plan, PlanReason, Step, line_of_number, line_of_part, read_plan};
use std::alloc::{AllocError, Global};

/// The plan of two mirrors that take a file each and pass it on.
const TWO_MIRRORS: &str =
    "latest\nlatest\ntake 0 a.opl\ntake 1 b.opl\npass 0 1 o5c\npass 1 0 opl\ntake 0 a.opl\n\
    write 0 opl x.opl\nwrite 1 opl y.opl\n";

/// Appends a plan's lines, without leading zeros and empty lines.
fn push_plan(text: &mut String, plan: &Plan) {
    for keep in &plan.mirrors {
        let word = if *keep == Keep::Full {
            "full"
        } else {
            "latest"
        };
        let _ = writeln!(text, "{word}");
    }
    for step in &plan.steps {
        let _ = push_step(text, step);
    }
    for write in &plan.writes {
        let (mirror, format) = (write.mirror, write.format.name());
        let _ = writeln!(text, "write {mirror} {format} {}", write.file.as_str());
    }
}

/// Appends a step's line.
fn push_step(text: &mut String, step: &Step) -> Result<(), AllocError> {
    match step {
        Step::Take { mirror, file } => writeln!(text, "take {mirror} {}", file.as_str()),
        Step::Pass { from, to, format } => writeln!(text, "pass {from} {to} {}", format.name()),
        Step::Restart { mirror, format } => writeln!(text, "restart {mirror} {}", format.name()),
    }
}

/// The lines of the plan that `bytes` spell, or the first faulty line and its reason.
fn plan_text(alloc: Global, bytes: &[u8]) -> String {
    let mut text = String::new(alloc);
    match read_plan(alloc, bytes) {
        Ok(plan) => push_plan(&mut text, &plan),
        Err(fault) => {
            let _ = writeln!(text, "line {}: {}", fault.line, fault.reason.name());
        }
    }
    text
}

/// Plans, and their lines.
const PLANS: [(&str, &str); 7] = [
    (TWO_MIRRORS, TWO_MIRRORS),
    ("", ""),
    ("\n\n", ""),
    ("full\nlatest", "full\nlatest\n"),
    ("full\n\nrestart 000000000 o5m\n", "full\nrestart 0 o5m\n"),
    ("full\nwrite 0 o5m é%\t.o5m", "full\nwrite 0 o5m é%\t.o5m\n"),
    (
        "full\nwrite 0 opl a\nwrite 0 o5c a",
        "full\nwrite 0 opl a\nwrite 0 o5c a\n",
    ),
];

#[test]
fn texts_spell_plans(rt: HostRuntime) {
    for (text, lines) in PLANS {
        assert_eq!(rt; plan_text(rt.alloc(), text.as_bytes()).as_str(), lines);
    }
}

/// Texts that are no plans.
const FAULTY: [(&[u8], &str); 20] = [
    (b"latest\ntake 1 a.opl", "line 2: NoMirror\n"),
    (b"latest\ntake 0 a.opl\nlatest", "line 3: BadOrder\n"),
    (b"latest\n\ntake 0  a.opl", "line 3: BadWord\n"),
    (b"full\ntake 0 ", "line 2: BadWord\n"),
    (b" full", "line 1: BadWord\n"),
    (b"full\r\n", "line 1: BadWord\n"),
    (b"\n\nmerge 0 a.opl", "line 3: BadWord\n"),
    (b"full\ntake 0", "line 2: BadWord\n"),
    (b"full\ntake +0 a.opl", "line 2: BadWord\n"),
    (b"full\ntake  a.opl", "line 2: BadWord\n"),
    (b"full\ntake 999999999 a.opl", "line 2: NoMirror\n"),
    (b"full\ntake 0000000000 a.opl", "line 2: BadWord\n"),
    (b"full\nrestart 0 xml", "line 2: BadWord\n"),
    (b"full\npass 0 1 o5c\nfull", "line 2: NoMirror\n"),
    (b"full\npass 1 0 o5c", "line 2: NoMirror\n"),
    (b"take 0 a.opl\nfull", "line 1: NoMirror\n"),
    (b"full\nwrite 1 opl x.opl", "line 2: NoMirror\n"),
    (
        b"full\nwrite 0 opl x.opl\ntake 9 a.opl",
        "line 3: BadOrder\n",
    ),
    (b"full\nwrite 0 opl x.opl\nlatest", "line 3: BadOrder\n"),
    (b"merge\n\xff", "line 0: NotUtf8\n"),
];

#[test]
fn the_first_faulty_line_is_reported(rt: HostRuntime) {
    for (bytes, text) in FAULTY {
        assert_eq!(rt; plan_text(rt.alloc(), bytes).as_str(), text);
    }
}

#[test]
fn reasons_have_names(rt: HostRuntime) {
    for (reason, name) in [
        (PlanReason::NotUtf8, "NotUtf8"),
        (PlanReason::BadWord, "BadWord"),
        (PlanReason::BadOrder, "BadOrder"),
        (PlanReason::NoMirror, "NoMirror"),
        (PlanReason::Memory, "Memory"),
    ] {
        assert_eq!(rt; reason.name(), name);
    }
}

#[test]
fn parts_have_lines(rt: HostRuntime) {
    let text = b"latest\n\ntake 0 a\nwrite 0 opl b";
    for (index, line) in [
        (0, Some((1, "latest"))),
        (1, Some((3, "take 0 a"))),
        (2, Some((4, "write 0 opl b"))),
        (3, None),
    ] {
        assert!(rt; line_of_part(text, index) == line);
    }
    for (number, line) in [
        (0, None),
        (1, Some("latest")),
        (2, Some("")),
        (4, Some("write 0 opl b")),
        (5, None),
    ] {
        assert!(rt; line_of_number(text, number) == line);
    }
    assert!(rt; line_of_part(b"\xff", 0).is_none());
}
