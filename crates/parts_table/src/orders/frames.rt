//! The frames of a processor. A list of calls is allowed where each call's condition holds after
//! the calls before it.
ghost use Rattle.std.specs.Prelude.{◌≡◌};
ghost use Rattle.nt_frame.specs.Changes.{no_frames};

use crate::frames::write_calls;
use crate::writing::no_such_case;
use nt_event::{ApcKind, ApcNo, Body, CpuNo, DpcNo, Level, Region, ThreadNo};
use nt_frame::{FrameCall, Frames};
use std::io;

const T0: ThreadNo = ThreadNo(0);

/// Writes the answers of a case.
pub fn answer(rt: HostRuntime, case: &str) -> io::Result<()> {
    let mut frames = Frames::new(rt.alloc(), CpuNo(0), 1)?;
    make_calls(rt, case, &mut frames)
}

/// Makes the calls of a case on a processor with one thread, and writes where they leave it.
fn make_calls(rt: HostRuntime, case: &str, frames: &mut Frames) -> io::Result<()>
    requires { frames.old ≡ no_frames 1 }
{
    match case {
        "regions are entered and left where no routine runs" => no_routine(rt, frames)?,
        "a region is left more often than entered" => left_too_often(rt, frames)?,
        "a routine leaves what another entered" => left_by_another(rt, frames)?,
        "a level is lowered below its base" => below_its_base(rt, frames)?,
        "threads are taken up and off under an interrupt" => under_an_interrupt(rt, frames)?,
        "a thread that is gone is taken up anew" => taken_up_anew(rt, frames)?,
        "a thread that leaves raises its level" => raised_in_leaving(rt, frames)?,
        _ => no_such_case(rt)?,
    }
    write_stand(rt, frames)
}

/// Writes the level, that to which it goes back, and the running thread.
fn write_stand(rt: HostRuntime, frames: &Frames) -> io::Result<()> {
    println!(rt;
        "  level {}, then {}, running {:?}",
        frames.level().number(),
        frames.ended_level().number(),
        frames.running()
    )
}

/// A thread is taken up and its base routine not begun.
fn no_routine(rt: HostRuntime, frames: &mut Frames) -> io::Result<()>
    requires { frames.old ≡ no_frames 1 }
{
    let calls = [
        FrameCall::Leave(Region::Crit),
        FrameCall::SwitchTo(T0),
        FrameCall::Enter(Region::Guard),
        FrameCall::Leave(Region::Guard),
        FrameCall::SwitchAway,
    ];
    write_calls(rt, frames, &calls)
}

fn left_too_often(rt: HostRuntime, frames: &mut Frames) -> io::Result<()>
    requires { frames.old ≡ no_frames 1 }
{
    let calls = [
        FrameCall::SwitchTo(T0),
        FrameCall::Begin(Body::Base(T0), 1),
        FrameCall::Leave(Region::Guard),
        FrameCall::Enter(Region::Crit),
        FrameCall::Leave(Region::Crit),
        FrameCall::Leave(Region::Crit),
    ];
    write_calls(rt, frames, &calls)
}

/// The region counts for the routine that entered it.
fn left_by_another(rt: HostRuntime, frames: &mut Frames) -> io::Result<()>
    requires { frames.old ≡ no_frames 1 }
{
    let calls = [
        FrameCall::SwitchTo(T0),
        FrameCall::Begin(Body::Base(T0), 1),
        FrameCall::Enter(Region::Crit),
        FrameCall::Begin(Body::Apc(ApcNo(3), ApcKind::Special), 2),
        FrameCall::Leave(Region::Crit),
        FrameCall::Finish,
        FrameCall::Leave(Region::Crit),
    ];
    write_calls(rt, frames, &calls)
}

fn below_its_base(rt: HostRuntime, frames: &mut Frames) -> io::Result<()>
    requires { frames.old ≡ no_frames 1 }
{
    let calls = [
        FrameCall::Begin(Body::Dpc(DpcNo(4)), 1),
        FrameCall::Lower(Level::APC),
        FrameCall::Lower(Level::CLOCK),
        FrameCall::Raise(Level::APC),
        FrameCall::Raise(Level::DISPATCH),
        FrameCall::Finish,
    ];
    write_calls(rt, frames, &calls)
}

/// The frames below stay as they are; a base routine begins only once no frame is over it.
fn under_an_interrupt(rt: HostRuntime, frames: &mut Frames) -> io::Result<()>
    requires { frames.old ≡ no_frames 1 }
{
    let calls = [
        FrameCall::Begin(Body::Int(Level::CLOCK), 1),
        FrameCall::SwitchTo(T0),
        FrameCall::Finish,
        FrameCall::Begin(Body::Base(T0), 2),
        FrameCall::Begin(Body::Int(Level::CLOCK), 3),
        FrameCall::SwitchAway,
    ];
    write_calls(rt, frames, &calls)
}

fn taken_up_anew(rt: HostRuntime, frames: &mut Frames) -> io::Result<()>
    requires { frames.old ≡ no_frames 1 }
{
    let calls = [
        FrameCall::SwitchTo(T0),
        FrameCall::Begin(Body::Base(T0), 1),
        FrameCall::EndBase,
        FrameCall::Gone,
        FrameCall::SwitchTo(T0),
        FrameCall::Begin(Body::Base(T0), 2),
    ];
    write_calls(rt, frames, &calls)
}

/// A rundown routine runs at PASSIVE_LEVEL whatever the level below it is.
fn raised_in_leaving(rt: HostRuntime, frames: &mut Frames) -> io::Result<()>
    requires { frames.old ≡ no_frames 1 }
{
    let calls = [
        FrameCall::SwitchTo(T0),
        FrameCall::Begin(Body::Base(T0), 1),
        FrameCall::EndBase,
        FrameCall::Raise(Level::CLOCK),
        FrameCall::Begin(Body::Rundown(ApcNo(9)), 2),
    ];
    write_calls(rt, frames, &calls)
}
