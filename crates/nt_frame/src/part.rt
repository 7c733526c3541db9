//! One part: the frames that stand on a processor, or on a thread.
ghost use Rattle.std.specs.Prelude.{◌≡◌, ◌<◌, ◌^◌, [], ◌∷◌, length, option_copied, reverse};
ghost use Rattle.std.specs.Prelude.{vec_capacity, IfOk};
ghost use Rattle.std.specs.Option.{ForSome};
ghost use Rattle.nt_event.specs.Frames.{at_head, is_normal_apc_body, new_frame};
ghost use Rattle.nt_event.specs.Regions.{busy_of, crit_of, guard_of, regions_of};
ghost use Rattle.nt_event.specs.Lists.{head_of, is_null, tail_of};
ghost use Rattle.nt_frame.specs.Changes.{MayChange, changed};

use crate::change::Change;
use crate::frame::Frame;
use nt_event::{ApcKind, Body, Regions};
use std::alloc::{AllocError, Global};
use std::marker::Model;

/// The regions of no thread.
pub(crate) const NO_REGIONS: Regions = Regions {
    crit: 0,
    guard: 0,
    busy: false,
};

/// The frames of one part, of which there are at most `ROOM`. Contracts see the list of them, the
/// innermost first.
#[derive(Drop, Debug)]
pub struct Part<const ROOM: usize> {
    frames: Vec<Frame>,
}

impl<const ROOM: usize> Model for Part<ROOM> {
    ghost use Rattle.std.specs.Prelude.{List, reverse, ◌≤◌, vec_capacity};
    ghost use Rattle.nt_event.specs.Frame.{Frame};

    ghost Value = { List Frame };

    ghost view = { λ a. reverse a.frames.items };

    ghost invariant = { λ a. ROOM ≤ vec_capacity a.frames };
}

impl<const ROOM: usize> Part<ROOM> {
    /// No frames, and room for all that there may be.
    pub fn new(alloc: Global) -> Result<Self, AllocError>
        ensures { IfOk result (λ part. part ≡ []) }
    {
        Ok(Part {
            frames: Vec::with_capacity(alloc, ROOM)?,
        })
    }

    /// A copy of it, with room for all that there may be.
    pub(crate) fn copy(&self, alloc: Global) -> Result<Self, AllocError>
        ensures { IfOk result (λ part. part ≡ self.now) }
    {
        let mut frames = Vec::with_capacity(alloc, ROOM)?;
        for frame in &self.frames {
            frames.push(frame.copy())?;
        }
        Ok(Part { frames })
    }

    /// The frames, the outermost first.
    pub fn frames(&self) -> &[Frame]
        ensures { reverse result.now ≡ self.now }
    {
        self.frames.as_slice()
    }

    pub fn is_empty(&self) -> bool
        ensures { result ≡ is_null self.now }
    {
        self.frames.is_empty()
    }

    pub fn innermost(&self) -> Option<&Frame>
        ensures { option_copied result ≡ head_of self.now }
    {
        self.frames.last()
    }

    /// The frame under the innermost one.
    pub fn second(&self) -> Option<&Frame>
        ensures { option_copied result ≡ head_of (tail_of self.now) }
    {
        outer(self.frames.as_slice()).last()
    }

    /// Begins a frame by this name.
    #[inline(always)]
    pub fn begin(&mut self, name: u64, body: Body)
        requires { length self.old < ROOM }
        ensures { self.new ≡ new_frame name body ∷ self.old }
    {
        if self.frames.push(Frame::new(name, body)).is_err() {
            unreachable!();
        }
    }

    pub fn pop(&mut self)
        ensures { self.new ≡ tail_of self.old }
    {
        let _ = self.frames.pop();
    }

    pub fn clear(&mut self)
        ensures { self.new ≡ [] }
    {
        self.frames.clear();
    }

    /// Makes the change of the innermost frame.
    #[inline(always)]
    pub fn change(&mut self, change: &Change)
        requires { ForSome (head_of self.old) (MayChange change.now) }
        ensures { self.new ≡ at_head (changed change.now) self.old }
    {
        let Some(last) = self.frames.last_mut() else {
            return;
        };
        last.change(change);
    }

    /// The regions of the thread whose part this is.
    pub fn regions(&self) -> Regions
        requires crit { crit_of self.now < 2 ^ 32 }
        requires guard { guard_of self.now < 2 ^ 32 }
        ensures { result ≡ regions_of self.now }
    {
        regions(self.frames.as_slice())
    }

    /// The regions of the thread whose part this is, once its innermost frame has ended.
    pub fn regions_below(&self) -> Regions
        requires crit { crit_of self.now < 2 ^ 32 }
        requires guard { guard_of self.now < 2 ^ 32 }
        ensures { result ≡ regions_of (tail_of self.now) }
    {
        regions(outer(self.frames.as_slice()))
    }
}

/// Whether it is a normal kernel APC.
pub fn is_normal_apc(body: &Body) -> bool
    ensures { result ≡ is_normal_apc_body body.now }
{
    matches!(body, Body::Apc(_, ApcKind::Normal))
}

fn regions(frames: &[Frame]) -> Regions
    requires crit { crit_of (reverse frames.now) < 2 ^ 32 }
    requires guard { guard_of (reverse frames.now) < 2 ^ 32 }
    ensures { result ≡ regions_of (reverse frames.now) }
{
    match frames {
        [] => NO_REGIONS,
        [frame] => Regions {
            crit: frame.crit(),
            guard: frame.guard(),
            busy: is_normal_apc(frame.body()),
        },
        _ => Regions {
            crit: crit(frames),
            guard: guard(frames),
            busy: is_busy(frames),
        },
    }
}

/// All frames but the innermost.
fn outer(frames: &[Frame]) -> &[Frame]
    ensures { reverse result.now ≡ tail_of (reverse frames.now) }
{
    &frames[..frames.len().saturating_sub(1)]
}

fn crit(frames: &[Frame]) -> u32
    requires { crit_of (reverse frames.now) < 2 ^ 32 }
    ensures { result ≡ crit_of (reverse frames.now) }
{
    frames.iter().rev().map(|f| f.crit()).sum()
}

fn guard(frames: &[Frame]) -> u32
    requires { guard_of (reverse frames.now) < 2 ^ 32 }
    ensures { result ≡ guard_of (reverse frames.now) }
{
    frames.iter().rev().map(|f| f.guard()).sum()
}

fn is_busy(frames: &[Frame]) -> bool
    ensures { result ≡ busy_of (reverse frames.now) }
{
    frames.iter().rev().any(|f| is_normal_apc(f.body()))
}
