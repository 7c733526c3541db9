//! Frames, without their names.
ghost use Rattle.std.specs.Prelude.{◌≡◌, ◌<◌, ◌^◌, IfOk, length, map, reverse};
ghost use Rattle.nt_event.specs.Frames.{frames_in};
ghost use Rattle.nt_alike.specs.Bare.{bare_frame};
ghost use Rattle.nt_shade.specs.Frames.{frame_said, part_said};

use nt_event::{Again, Body, Held, ThreadNo};
use nt_frame::{Frame, Frames};
use nt_level::Level;
use std::alloc::{AllocError, Global};

/// A routine that has begun and has not ended.
#[derive(Clone, PartialEq, Eq, Hash, Drop, Debug)]
pub struct ShadeFrame {
    /// What runs in it.
    pub body: Body,
    pub level: Level,
    /// How many commands its present routine has called.
    pub place: u32,
    /// How often its present routine has entered a critical region and not left it.
    pub crit: u32,
    /// The same of a guarded region.
    pub guard: u32,
    /// Whether it is an APC in its kernel routine.
    pub kernel_phase: bool,
    /// Whether it is the base of a thread whose base routine has ended.
    pub leaving: bool,
    /// The wait that it has to take up again, or in which its thread is blocked.
    pub again: Option<Again>,
    /// The lock on which it spins, and the level kept with it.
    pub spin: Option<Held>,
    /// The locks that it holds, in the order in which it acquired them.
    pub held: Vec<Held>,
}

/// The locks that a frame holds.
fn held_of(alloc: Global, frame: &Frame) -> Result<Vec<Held>, AllocError>
    ensures { IfOk result (λ v. reverse v.items ≡ frame.now.held) }
{
    let count = frame.held_count();
    let mut held = Vec::with_capacity(alloc, count)?;
    for place in 0..count {
        held.push(frame.held(place))?;
    }
    Ok(held)
}

/// What stands of a frame.
fn frame_of(alloc: Global, frame: &Frame) -> Result<ShadeFrame, AllocError>
    ensures { IfOk result (λ x. frame_said x ≡ bare_frame frame.now) }
{
    Ok(ShadeFrame {
        body: *frame.body(),
        level: frame.level(),
        place: frame.place(),
        crit: frame.crit(),
        guard: frame.guard(),
        kernel_phase: frame.kernel_phase(),
        leaving: frame.leaving(),
        again: frame.again(),
        spin: frame.spin(),
        held: held_of(alloc, frame)?,
    })
}

/// What stands of frames, in their order.
fn frames_of(alloc: Global, frames: &[Frame]) -> Result<Vec<ShadeFrame>, AllocError>
    ensures { IfOk result (λ v. map frame_said v.items ≡ map bare_frame frames.now) }
{
    let mut shades = Vec::with_capacity(alloc, frames.len())?;
    for frame in frames {
        shades.push(frame_of(alloc, frame)?)?;
    }
    Ok(shades)
}

/// What stands on a processor's own part.
pub(crate) fn own_part(alloc: Global, frames: &Frames) -> Result<Vec<ShadeFrame>, AllocError>
    ensures { IfOk result (λ v. part_said v.items ≡ map bare_frame frames.now.own) }
{
    frames_of(alloc, frames.own())
}

/// What stands on the part of a thread.
fn thread_part(alloc: Global, frames: &Frames, t: ThreadNo) -> Result<Vec<ShadeFrame>, AllocError>
    requires { t.0 < length frames.now.threads }
    ensures { IfOk result (λ v. part_said v.items
        ≡ map bare_frame (frames_in frames.now.threads t)) }
{
    frames_of(alloc, frames.of_thread(t))
}

/// What stands on the parts of a processor's threads, in the order of their numbers.
pub(crate) fn thread_parts(
    alloc: Global,
    frames: &Frames,
) -> Result<Vec<Vec<ShadeFrame>>, AllocError>
    requires { length frames.now.threads < 2 ^ 16 }
    ensures { IfOk result (λ v. map (λ t. part_said t.items) v.items
        ≡ map (map bare_frame) frames.now.threads) }
{
    let count = frames.thread_count();
    let mut parts = Vec::with_capacity(alloc, count)?;
    for t in 0..count {
        parts.push(thread_part(alloc, frames, ThreadNo(t as u16))?)?;
    }
    Ok(parts)
}
