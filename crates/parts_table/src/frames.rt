//! The frames of a processor: what calls answer, and what they leave.
ghost use Rattle.std.specs.Prelude.{◌≡◌};
ghost use Rattle.nt_frame.specs.Calls.{MayCallAll};
ghost use Rattle.nt_frame.specs.Changes.{no_frames};

use crate::writing::{no_such_case, write, write_both};
use nt_event::{
    Again, ApcKind, ApcNo, Body, Command, CpuNo, DpcNo, LockNo, Mode, Region, Regions, Stand,
    ThreadNo,
};
use nt_frame::{FrameAnswer, FrameCall, FrameView, Frames, StandView, perform_all};
use nt_level::Level;
use std::io;

const T0: ThreadNo = ThreadNo(0);

const T1: ThreadNo = ThreadNo(1);

/// Writes the answers of a case.
pub fn answer(rt: HostRuntime, case: &str) -> io::Result<()> {
    let mut frames = Frames::new(rt.alloc(), CpuNo(0), 2)?;
    make_calls(rt, case, &mut frames)?;
    write_left(rt, case, &frames)
}

/// Makes the calls of a case on a processor with two threads.
fn make_calls(rt: HostRuntime, case: &str, frames: &mut Frames) -> io::Result<()>
    requires { frames.old ≡ no_frames 2 }
{
    match case {
        "no frame at the start" => Ok(()),
        "levels and regions of a thread" => levels_and_regions_of_a_thread(rt, frames),
        "routines over a thread" => routines_over_a_thread(rt, frames),
        "threads come and go" => threads_come_and_go(rt, frames),
        "locks of a thread" => locks_of_a_thread(rt, frames),
        _ => no_such_case(rt),
    }
}

/// Writes what the calls of a case leave.
fn write_left(rt: HostRuntime, case: &str, frames: &Frames) -> io::Result<()> {
    match case {
        "no frame at the start" | "levels and regions of a thread" => {
            write_questions(rt, frames)?;
            write_refusals(rt, frames)
        }
        "routines over a thread" | "threads come and go" => write_questions(rt, frames),
        "locks of a thread" => {
            write_locks(rt, frames.last_held(), frames.spinning())?;
            write_levels(rt, frames.level(), frames.level_after())
        }
        _ => Ok(()),
    }
}

fn write_answer(rt: HostRuntime, call: &FrameCall, answer: &FrameAnswer) -> io::Result<()> {
    println!(rt; "  {call:?}: {answer:?}")
}

/// Makes the calls and writes each with its answer.
pub(crate) fn write_calls(
    rt: HostRuntime,
    frames: &mut Frames,
    calls: &[FrameCall],
) -> io::Result<()>
    requires { MayCallAll calls.now frames.old }
{
    let answers = perform_all(rt.alloc(), frames, calls)?;
    write_answers(rt, calls, answers.as_slice())
}

fn write_answers(rt: HostRuntime, calls: &[FrameCall], answers: &[FrameAnswer]) -> io::Result<()> {
    for (call, answer) in calls.iter().zip(answers.iter()) {
        write_answer(rt, call, answer)?;
    }
    Ok(())
}

/// Writes the level, and that to which it goes back.
fn write_levels(rt: HostRuntime, level: Level, after: Level) -> io::Result<()> {
    write_both(rt, "level", &level.number(), "then", &after.number())
}

fn write_running(rt: HostRuntime, running: Option<ThreadNo>) -> io::Result<()> {
    write(rt, "running", &running)
}

/// Writes whether the own part has frames, and whether the running thread's part has the innermost.
fn write_part(rt: HostRuntime, own: bool, thread: bool) -> io::Result<()> {
    write_both(rt, "own part", &own, "thread's part", &thread)
}

fn write_regions(rt: HostRuntime, regions: Regions, then: &str) -> io::Result<()> {
    println!(rt; "  {regions:?}{then}")
}

fn write_innermost(rt: HostRuntime, frame: Option<FrameView>) -> io::Result<()> {
    write(rt, "innermost", &frame)
}

/// Writes where a processor is that owes a sweep.
fn write_stand(rt: HostRuntime, stand: &StandView) -> io::Result<()> {
    let answers = Stand {
        cpu: stand.cpu(),
        thread: stand.thread(),
        frame: stand.frame(),
        body: stand.body(),
        level: stand.level(),
        regions: stand.regions(),
        below: stand.below(),
        ended_level: stand.ended_level(),
        after: stand.after(),
        again: stand.again(),
        sweep: stand.sweep(),
    };
    println!(rt; "  {answers:?}")
}

/// Writes what the frames answer.
fn write_questions(rt: HostRuntime, frames: &Frames) -> io::Result<()> {
    write_levels(rt, frames.level(), frames.ended_level())?;
    write_running(rt, frames.running())?;
    write_part(rt, frames.has_own(), frames.is_on_thread())?;
    write_regions(rt, frames.regions(), "")?;
    write_regions(rt, frames.below(), " then")?;
    write_innermost(rt, frames.innermost())?;
    write_stand(rt, &StandView::new(CpuNo(0), frames, true))
}

/// Writes which lock the innermost routine acquired last of those that it holds, and on which it
/// spins.
fn write_locks(rt: HostRuntime, held: Option<LockNo>, spun: Option<LockNo>) -> io::Result<()> {
    write_both(rt, "holds", &held, "spins on", &spun)
}

/// Writes why the command would be refused, if it would.
fn write_refusal(rt: HostRuntime, frames: &Frames, command: Command) -> io::Result<()> {
    println!(rt; "  {command:?} refused {:?}", frames.refusal(&command))
}

fn write_refusals(rt: HostRuntime, frames: &Frames) -> io::Result<()> {
    write_refusal(rt, frames, Command::Yield)?;
    write_refusal(rt, frames, Command::ToUser)?;
    write_refusal(rt, frames, Command::LeaveGuard)
}

fn levels_and_regions_of_a_thread(rt: HostRuntime, frames: &mut Frames) -> io::Result<()>
    requires { frames.old ≡ no_frames 2 }
{
    let calls = [
        FrameCall::SwitchTo(T1),
        FrameCall::Begin(Body::Base(T1), 1),
        FrameCall::AdvancePlace,
        FrameCall::Enter(Region::Crit),
        FrameCall::Enter(Region::Guard),
        FrameCall::Leave(Region::Guard),
        FrameCall::Leave(Region::Guard),
        FrameCall::Raise(Level::DISPATCH),
        FrameCall::Raise(Level::APC),
        FrameCall::Lower(Level::CLOCK),
        FrameCall::Enter(Region::Crit),
    ];
    write_calls(rt, frames, &calls)
}

fn routines_over_a_thread(rt: HostRuntime, frames: &mut Frames) -> io::Result<()>
    requires { frames.old ≡ no_frames 2 }
{
    let calls = [
        FrameCall::SwitchTo(T1),
        FrameCall::Begin(Body::Base(T1), 1),
        FrameCall::Begin(Body::Dpc(DpcNo(4)), 2),
        FrameCall::Begin(Body::Int(Level::CLOCK), 3),
        FrameCall::Enter(Region::Crit),
        FrameCall::Raise(Level::IPI),
        FrameCall::Lower(Level::DISPATCH),
        FrameCall::Finish,
        FrameCall::Finish,
        FrameCall::Begin(Body::Apc(ApcNo(3), ApcKind::Normal), 4),
        FrameCall::Enter(Region::Crit),
        FrameCall::Normal,
        FrameCall::Begin(Body::Apc(ApcNo(5), ApcKind::Special), 5),
        FrameCall::Finish,
        FrameCall::Finish,
    ];
    write_calls(rt, frames, &calls)
}

fn threads_come_and_go(rt: HostRuntime, frames: &mut Frames) -> io::Result<()>
    requires { frames.old ≡ no_frames 2 }
{
    let delay = Again {
        mode: Mode::User,
        alertable: true,
        due: Some(70),
    };
    let calls = [
        FrameCall::SwitchTo(T1),
        FrameCall::Begin(Body::Base(T1), 1),
        FrameCall::SetAgain(Some(delay)),
        FrameCall::SwitchAway,
        FrameCall::SwitchTo(T0),
        FrameCall::Begin(Body::Base(T0), 2),
        FrameCall::EndBase,
        FrameCall::Begin(Body::Rundown(ApcNo(9)), 3),
        FrameCall::Finish,
        FrameCall::Gone,
        FrameCall::SwitchTo(T1),
    ];
    write_calls(rt, frames, &calls)
}

fn locks_of_a_thread(rt: HostRuntime, frames: &mut Frames) -> io::Result<()>
    requires { frames.old ≡ no_frames 2 }
{
    let calls = [
        FrameCall::SwitchTo(T1),
        FrameCall::Begin(Body::Base(T1), 1),
        FrameCall::Acquired(LockNo(2), true),
        FrameCall::Acquired(LockNo(5), false),
        FrameCall::Acquired(LockNo(5), true),
        FrameCall::Unlock(LockNo(2)),
        FrameCall::Lower(Level::PASSIVE),
        FrameCall::Free,
        FrameCall::Unlock(LockNo(2)),
        FrameCall::Free,
        FrameCall::Acquired(LockNo(5), false),
    ];
    write_calls(rt, frames, &calls)
}
