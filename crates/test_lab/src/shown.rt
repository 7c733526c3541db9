//! Which run a text shows: of a script alone, of a schedule and of a report.
ghost use Rattle.nt_lab_words.specs.Words.{IsHow};

use nt_event::ScheduleKind;
use nt_lab_words::{How, USUAL};
use nt_orders::Went;
use nt_shown::{ShownRefusal, shown_run};
use nt_text::INPUT_LIMIT;
use std::alloc::{AllocError, Global};
use std::test::Fail;

/// A thread makes a note: its events are the switch, the note, the end, that it is gone, and rest.
const SCRIPT: &str = "cpus 1\nthread main 0 body\nroutine body\nnote 1\nexit\n";

/// How many events the run has that a text shows, and how far a schedule went; or why it shows
/// none.
fn shown_of(alloc: Global, text: &[u8], how: How) -> Result<(usize, Went), ShownRefusal>
    requires { IsHow how }
{
    if text.len() > INPUT_LIMIT {
        return Err(ShownRefusal::NoMemory);
    }
    match shown_run(alloc, text, how) {
        Ok(run) => {
            let found = (run.gone.history.len(), run.gone.went);
            drop(run);
            Ok(found)
        }
        Err(refusal) => Err(refusal),
    }
}

/// The same of the script with this behind it.
fn shown(alloc: Global, behind: &str, how: How) -> Result<(usize, Went), ShownRefusal>
    requires { IsHow how }
{
    let mut text = SCRIPT.as_bytes().to_vec(alloc)?;
    text.extend_from_slice(behind.as_bytes())?;
    shown_of(alloc, text.as_slice(), how)
}

/// Whether the script shows a run of five events with this behind it.
fn shows_all(alloc: Global, behind: &str) -> bool {
    shown(alloc, behind, USUAL) == Ok((5, Went::All))
}

#[test]
fn a_script_shows_its_run(rt: HostRuntime) -> Result<(), Fail> {
    let alloc = rt.alloc();
    assert!(rt; shows_all(alloc, ""));
    assert!(rt; shows_all(alloc, "expect\nnever maybe\ndone\n"));
    Ok(())
}

#[test]
fn a_schedule_is_replayed_or_goes_on(rt: HostRuntime) -> Result<(), Fail> {
    let alloc = rt.alloc();
    let whole = "schedule 9\nswitch 0 main\nnext 0\nnext 0\nnext 0\nnext 0\ndone\n";
    assert!(rt; shows_all(alloc, whole));
    let front = "schedule 9\nswitch 0 main\nnext 0\ndone\n";
    let unfinished = ShownRefusal::Turn {
        at: 2,
        kind: ScheduleKind::Unfinished,
    };
    assert!(rt; shown(alloc, front, USUAL) == Err(unfinished));
    let how = How {
        goes_on: true,
        ..USUAL
    };
    assert!(rt; shown(alloc, front, how) == Ok((5, Went::All)));
    let refused = Went::RefusedAt {
        at: 1,
        kind: ScheduleKind::BadChoice,
    };
    let bad = "schedule 9\nswitch 0 main\nswitch 0 main\ndone\n";
    assert!(rt; shown(alloc, bad, how) == Ok((5, refused)));
    Ok(())
}

#[test]
fn a_report_is_checked(rt: HostRuntime) -> Result<(), Fail> {
    let alloc = rt.alloc();
    let report = "report\n0 p0 main 0 switch main\n1 p0 main 0 call 0 note 1 -> done\n\
        2 p0 main 0 end 0\n3 p0 main 0 gone main\n4 p0 - 0 rest\nschedule 9\nswitch 0 main\n\
        next 0\nnext 0\nnext 0\nnext 0\ndone\n";
    assert!(rt; shows_all(alloc, report));
    let other = "report\n0 p0 main 0 switch main\n1 p0 main 0 call 0 note 2 -> done\n\
        2 p0 main 0 end 0\n3 p0 main 0 gone main\n4 p0 - 0 rest\nschedule 9\nswitch 0 main\n\
        next 0\nnext 0\nnext 0\nnext 0\ndone\n";
    assert!(rt; shown(alloc, other, USUAL) == Err(ShownRefusal::Event(1)));
    Ok(())
}
