//! `shrink`: a schedule that still delivers a request, and why there is none.
use super::{IDLE_TARGET, gives};
use nt_top::Status;
use std::alloc::AllocError;
use std::sync::Wait;
use std::test::Fail;
use std::thread::Threads;

/// A schedule for `IDLE_TARGET` in which processor 1 begins the DPC that processor 0 queues for it.
const DELIVERS: &str = "\
    schedule 10000\nswitch 0 a\nnext 1\nnext 0\nnext 0\nlook 1 2=4\nnext 0\nnext 1\n\
    next 0\nnext 1\nnext 0\nnext 1\nnext 1\ndone\n";

/// The turns of it that are needed: the DPC is queued for processor 1, which notices that and
/// begins it.
const NEEDED: &str =
    "schedule 10000\nswitch 0 a\nnext 1\nnext 0\nnext 0\nlook 1 2=4\nnext 1\ndone\n";

/// Whether a schedule for `IDLE_TARGET`, shrunk for this goal, answers this status and text.
fn shrinks<R: AllocGlobal + Threads + Wait + Sync>(
    rt: &R,
    goal: &str,
    schedule: &str,
    status: Status,
    text: &str,
) -> Result<bool, AllocError> {
    let mut input = IDLE_TARGET.as_bytes().to_vec(rt.alloc())?;
    input.extend_from_slice(schedule.as_bytes())?;
    gives(rt, &["shrink", goal], input.as_slice(), status, text)
}

#[test]
fn what_is_not_needed_is_left_out(rt: HostRuntime) -> Result<(), Fail> {
    assert!(rt; shrinks(&rt, "--goal=d", DELIVERS, Status::Ok, NEEDED)?);
    Ok(())
}

#[test]
fn schedules_are_not_shrunk(rt: HostRuntime) -> Result<(), Fail> {
    assert!(rt; shrinks(&rt, "--goal=q", DELIVERS, Status::NoGoal, "no goal\n")?);
    let switch = "schedule 10000\nswitch 0 a\ndone\n";
    assert!(rt;
        shrinks(
            &rt,
            "--goal=d",
            switch,
            Status::NotDelivered,
            "not delivered\n"
        )?
    );
    let idle = "schedule 10000\nnext 1\nnext 1\ndone\n";
    let refused = "schedule turn 1: 2 NothingToDo\n";
    assert!(rt; shrinks(&rt, "--goal=d", idle, Status::Schedule, refused)?);
    Ok(())
}

/// Puts a schedule of 1,001 turns.
fn put_turns(schedule: &mut String) -> Result<(), AllocError> {
    schedule.push_str("schedule 10000\n")?;
    for _ in 0..1_001 {
        schedule.push_str("next 1\n")?;
    }
    schedule.push_str("done\n")
}

/// Whether that schedule is too long.
fn is_too_long<R: AllocGlobal + Threads + Wait + Sync>(rt: &R) -> Result<bool, AllocError> {
    let mut schedule = String::new(rt.alloc());
    put_turns(&mut schedule)?;
    let text = schedule.as_str();
    shrinks(rt, "--goal=d", text, Status::TooMany, "too many turns\n")
}

/// A schedule of 1,001 turns is too long, whatever its turns are.
#[test]
fn a_schedule_is_too_long(rt: HostRuntime) -> Result<(), Fail> {
    assert!(rt; is_too_long(&rt)?);
    Ok(())
}
