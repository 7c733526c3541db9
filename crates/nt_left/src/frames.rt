//! What frames leave: raised levels, regions and locks.
ghost use Rattle.std.specs.Prelude.{◌≡◌, ◌++◌, OnOk, map, reverse};
ghost use Rattle.nt_event.specs.Frames.{base_of as base_of_frame};
ghost use Rattle.nt_left.specs.Items.{frame_items, holds_item, inside_item, raised_item};
ghost use Rattle.nt_left.specs.Lists.{along};

use crate::kinds::Left;
use crate::listing::put;
use nt_event::{Body, CpuNo, Level, Region, ThreadNo};
use nt_frame::Frame;
use std::alloc::AllocError;

/// The level with which the present routine of the frame began.
fn base_of(frame: &Frame) -> Level
    ensures { result ≡ base_of_frame frame.now }
{
    match frame.body() {
        Body::Int(level) => *level,
        Body::Dpc(_) => Level::DISPATCH,
        Body::Apc(_, _) => if frame.kernel_phase() {
            Level::APC
        } else {
            Level::PASSIVE
        },
        Body::Threaded(_) | Body::Base(_) | Body::Rundown(_) => Level::PASSIVE,
    }
}

/// What a frame leaves that stands above the level with which its routine began.
fn raised(cpu: CpuNo, owner: Option<ThreadNo>, frame: &Frame) -> Option<Left>
    ensures { result ≡ raised_item cpu owner frame.now }
{
    let base = base_of(frame);
    if frame.level().number() <= base.number() {
        return None;
    }
    Some(Left::Raised {
        cpu,
        owner,
        frame: frame.name(),
        level: frame.level(),
        base,
    })
}

/// What a frame of this name leaves that has entered a region so many times more than it left it.
fn inside(
    cpu: CpuNo,
    owner: Option<ThreadNo>,
    frame: u64,
    region: Region,
    count: u32,
) -> Option<Left>
    ensures { result ≡ inside_item cpu owner frame region count }
{
    if count == 0 {
        return None;
    }
    Some(Left::Inside {
        cpu,
        owner,
        frame,
        region,
        count,
    })
}

/// Adds the locks that the frame holds, in the order in which it acquired them.
fn put_held(
    out: &mut Vec<Left>,
    cpu: CpuNo,
    owner: Option<ThreadNo>,
    frame: &Frame,
) -> Result<(), AllocError>
    ensures { OnOk result (out.new.items ≡ out.old.items
        ++ map (holds_item cpu owner frame.now.name) (reverse frame.now.held)) }
{
    for place in 0..frame.held_count() {
        let held = frame.held(place);
        out.push(Left::Holds {
            cpu,
            owner,
            frame: frame.name(),
            lock: held.lock,
        })?;
    }
    Ok(())
}

/// Adds what a frame leaves.
fn put_frame(
    out: &mut Vec<Left>,
    cpu: CpuNo,
    owner: Option<ThreadNo>,
    frame: &Frame,
) -> Result<(), AllocError>
    ensures { OnOk result (out.new.items ≡ out.old.items ++ frame_items cpu owner frame.now) }
{
    let name = frame.name();
    put(out, raised(cpu, owner, frame))?;
    put(out, inside(cpu, owner, name, Region::Crit, frame.crit()))?;
    put(out, inside(cpu, owner, name, Region::Guard, frame.guard()))?;
    put_held(out, cpu, owner, frame)
}

/// Adds what frames leave, one after another.
pub(crate) fn put_each(
    out: &mut Vec<Left>,
    cpu: CpuNo,
    owner: Option<ThreadNo>,
    frames: &[Frame],
) -> Result<(), AllocError>
    ensures { OnOk result (out.new.items ≡ out.old.items
        ++ along (frame_items cpu owner) frames.now) }
{
    for frame in frames {
        put_frame(out, cpu, owner, frame)?;
    }
    Ok(())
}
