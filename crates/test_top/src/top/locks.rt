//! The forms on texts of version 2, which have spin locks and up to 64 processors.
use super::{RAISE_QUEUE_LOWER, gives};
use nt_top::Status;
use std::alloc::{AllocError, Global};
use std::sync::Wait;
use std::test::Fail;
use std::thread::Threads;

/// Two threads acquire two locks in opposite order.
const OPPOSITE: &str =
    "version 2\ncpus 2\nthread a 0 ra\nthread b 1 rb\nspinlock j\nspinlock k\nroutine ra\nacquire j\nacquire k\nexit\nroutine rb\nacquire k\nacquire j\nexit\n";

/// Each gets its first lock and spins on the other's.
const DEADLOCK: &str =
    "report\n0 p0 a 0 switch a\n1 p1 b 0 switch b\n2 p0 a 2 call 0 acquire j -> done\n3 p1 b 2 call 1 acquire k -> done\n4 p0 a 2 call 0 acquire k -> spin\n5 p1 b 2 call 1 acquire j -> spin\nspins p0 k of 4\nspins p1 j of 5\nschedule 10000\nswitch 0 a\nswitch 1 b\nnext 0\nnext 1\nnext 0\nnext 1\ndone\n";

/// The script in version 2 of its text.
fn newest(alloc: Global, script: &str) -> Result<String, AllocError> {
    let mut text = String::from_str(alloc, "version 2\n")?;
    text.push_str(script)?;
    Ok(text)
}

/// Whether `migrate` writes this text of the script, and of itself.
fn gives_newest<R: AllocGlobal + Threads + Wait + Sync>(
    rt: &R,
    script: &str,
    text: &str,
) -> Result<bool, AllocError> {
    let words = ["migrate"];
    Ok(
        gives(rt, &words, script.as_bytes(), Status::Ok, text)?
            && gives(rt, &words, text.as_bytes(), Status::Ok, text)?,
    )
}

/// Whether the script is migrated.
fn is_migrated<R: AllocGlobal + Threads + Wait + Sync>(
    rt: &R,
    script: &str,
) -> Result<bool, AllocError> {
    let text = newest(rt.alloc(), script)?;
    gives_newest(rt, script, text.as_str())
}

/// A script of version 1 gets the line of version 2; one of version 2 stays as it is.
#[test]
fn a_script_is_migrated(rt: HostRuntime) -> Result<(), Fail> {
    assert!(rt; is_migrated(&rt, RAISE_QUEUE_LOWER)?);
    Ok(())
}

/// A script that is refused is migrated no more than it is run.
#[test]
fn versions_are_refused(rt: HostRuntime) -> Result<(), Fail> {
    let bad = "script line 1: 5 BadNumber\n";
    assert!(rt; gives(&rt, &["migrate"], b"version 3\n", Status::Script, bad)?);
    let many = "script line 2: 10 TooMany cpus\n";
    assert!(rt; gives(&rt, &["run"], b"version 2\ncpus 65\n", Status::Script, many)?);
    let unknown = "script line 2: 2 UnknownWord\n";
    assert!(rt;
        gives(
            &rt,
            &["run"],
            b"cpus 1\nspinlock k\n",
            Status::Script,
            unknown
        )?
    );
    Ok(())
}

/// The report names who spins at the end, and on which lock.
#[test]
fn a_deadlock_is_reported(rt: HostRuntime) -> Result<(), Fail> {
    assert!(rt; gives(&rt, &["run"], OPPOSITE.as_bytes(), Status::Ok, DEADLOCK)?);
    Ok(())
}

/// Puts the report of so many processors that only rest.
fn put_rests(report: &mut String, cpus: u32) -> Result<(), AllocError> {
    report.push_str("report\n")?;
    for p in 0..cpus {
        write!(report, "{p} p{p} - 0 rest\n")?;
    }
    report.push_str("schedule 2500\n")?;
    for p in 0..cpus {
        write!(report, "next {p}\n")?;
    }
    report.push_str("done\n")
}

/// A script of 64 processors that only rest.
const RESTS: &[u8] = b"version 2\ncpus 64\n";

/// Whether a run writes this report of them, whatever turn limit is given.
fn gives_rests<R: AllocGlobal + Threads + Wait + Sync>(
    rt: &R,
    report: &str,
) -> Result<bool, AllocError> {
    let many = ["run", "--turns", "20000"];
    Ok(
        gives(rt, &["run"], RESTS, Status::Ok, report)?
            && gives(rt, &many, RESTS, Status::Ok, report)?,
    )
}

/// Whether they are reported.
fn rests_are_reported<R: AllocGlobal + Threads + Wait + Sync>(rt: &R) -> Result<bool, AllocError> {
    let mut report = String::new(rt.alloc());
    put_rests(&mut report, 64)?;
    gives_rests(rt, report.as_str())
}

/// The turn limit of more than eight processors is 2,500 at most.
#[test]
fn many_processors_have_fewer_turns(rt: HostRuntime) -> Result<(), Fail> {
    assert!(rt; rests_are_reported(&rt)?);
    Ok(())
}
