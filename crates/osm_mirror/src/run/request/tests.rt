//! The jobs of requests.
use super::{Command, FileRequest, RequestFault};
use crate::run::files_job::{FilesJob, Order};
use crate::run::inputs_job::InputsJob;
use crate::run::shard::Shard;
use osm_files::{EndRule, Format};
use osm_merge::Selection;

const EARLY: &str = "1970-01-01T00:00:10Z";

const LATE: &str = "1970-01-01T00:00:20Z";

/// The request of `command` without options, for OPL.
fn request<'a>(command: Command) -> FileRequest<'a> {
    FileRequest {
        command,
        with_history: false,
        with_deletions: false,
        sorted: false,
        time: None,
        end: None,
        format: Format::Opl,
        shard: None,
        end_rule: EndRule::Any,
    }
}

#[test]
fn commands_have_names(rt: HostRuntime) {
    for (name, command) in [
        ("merge", Some(Command::Merge)),
        ("apply", Some(Command::Apply)),
        ("sort", Some(Command::Sort)),
        ("time-filter", Some(Command::TimeFilter)),
        ("check", None),
    ] {
        assert_eq!(rt; Command::named(name), command);
    }
}

#[test]
fn commands_select_versions(rt: HostRuntime) {
    for (command, with_history, with_deletions, selection) in [
        (Command::Merge, false, true, Selection::All),
        (Command::Sort, false, false, Selection::All),
        (Command::Apply, true, false, Selection::All),
        (Command::Apply, false, true, Selection::Newest),
        (Command::Apply, false, false, Selection::NewestVisible),
    ] {
        let asked = FileRequest {
            with_history,
            with_deletions,
            ..request(command)
        };
        let run = InputsJob::Whole(FilesJob {
            selection,
            order: asked.order(),
            tries_largest: asked.tries_largest(),
            format: Format::Opl,
        });
        assert_eq!(rt; asked.run(), Ok(run));
    }
}

#[test]
fn a_shard_is_a_part_of_the_job(rt: HostRuntime) {
    let asked = FileRequest {
        shard: Shard::new(2, 3),
        end_rule: EndRule::LineFeed,
        ..request(Command::Merge)
    };
    match asked.run() {
        Ok(InputsJob::Part(job)) => {
            assert_eq!(rt; Some(job.shard), asked.shard);
            assert_eq!(rt; job.end, EndRule::LineFeed);
        }
        _ => assert!(rt; false),
    }
}

#[test]
fn files_have_an_order(rt: HostRuntime) {
    for (command, sorted, order) in [
        (Command::Merge, false, Order::Sorted),
        (Command::Apply, false, Order::Any),
        (Command::Apply, true, Order::Sorted),
        (Command::Sort, false, Order::Any),
        (Command::Sort, true, Order::Sorted),
    ] {
        let asked = FileRequest {
            sorted,
            ..request(command)
        };
        assert_eq!(rt; asked.order(), order);
    }
}

#[test]
fn times_select_a_state_or_a_period(rt: HostRuntime) {
    for (time, end, selection) in [
        (None, None, Err(RequestFault::NoTime)),
        (Some(EARLY), None, Ok(Selection::StateVisible(10))),
        (
            Some(EARLY),
            Some(LATE),
            Ok(Selection::Between { from: 10, to: 20 }),
        ),
        (
            Some("10"),
            Some(LATE),
            Err(RequestFault::NotMoment { time: "10" }),
        ),
        (
            Some(EARLY),
            Some("never"),
            Err(RequestFault::NotMoment { time: "never" }),
        ),
        (
            Some(LATE),
            Some(LATE),
            Err(RequestFault::NotAfterFirst { time: LATE }),
        ),
        (
            Some(LATE),
            Some(EARLY),
            Err(RequestFault::NotAfterFirst { time: EARLY }),
        ),
    ] {
        let asked = FileRequest {
            time,
            end,
            ..request(Command::TimeFilter)
        };
        assert_eq!(rt; asked.selection(), selection);
    }
}
