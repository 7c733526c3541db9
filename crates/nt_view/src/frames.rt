//! Routines by what they run for.
ghost use Rattle.nt_script.specs.Sound.{IsSound};

use crate::names::{apc, dpc, thread};
use crate::words::{kind_word, put, put_class, put_numbered};
use nt_event::{ApcNo, Begun};
use nt_history::{Brief, Briefs, Did};
use nt_script::Input;
use std::alloc::AllocError;

/// Adds an APC object with its kind.
fn put_apc(out: &mut Vec<u8>, input: &Input, number: ApcNo) -> Result<(), AllocError>
    requires { IsSound input.now }
{
    if let Some(declared) = input.script.apcs.as_slice().get(usize::from(number.0)) {
        put(out, &[kind_word(declared.kind), " "])?;
    }
    put(out, &["apc ", apc(input, number)])
}

/// Adds what begins.
pub(crate) fn put_begun(out: &mut Vec<u8>, input: &Input, begun: &Begun) -> Result<(), AllocError>
    requires { IsSound input.now }
{
    match begun {
        Begun::Int(level) => put_class(out, level.number()),
        Begun::Dpc(number) => put(out, &["dpc ", dpc(input, *number)]),
        Begun::Threaded(number) => put(out, &["threaded dpc ", dpc(input, *number)]),
        Begun::Apc(number) => put_apc(out, input, *number),
    }
}

/// Adds the routine that this event of this number began.
fn put_begun_by(
    out: &mut Vec<u8>,
    input: &Input,
    event: &Brief,
    number: u64,
) -> Result<(), AllocError>
    requires { IsSound input.now }
{
    match event.did {
        Did::Begin { begun, .. } => put_begun(out, input, &begun),
        Did::Switch { thread: taken, .. } => put(out, &["thread ", thread(input, taken)]),
        Did::Flush { apc: flushed, .. } => put(out, &["rundown of apc ", apc(input, flushed)]),
        Did::Call { .. }
        | Did::Look { .. }
        | Did::Normal { .. }
        | Did::End { .. }
        | Did::Expire { .. }
        | Did::Fire { .. }
        | Did::Clean { .. }
        | Did::Rewait { .. }
        | Did::Gone { .. }
        | Did::Free { .. }
        | Did::Rest => put_numbered(out, "routine ", number),
    }
}

/// Adds the routine that the event of this number began.
pub(crate) fn put_frame(
    out: &mut Vec<u8>,
    input: &Input,
    events: &Briefs,
    frame: u64,
) -> Result<(), AllocError>
    requires { IsSound input.now }
{
    match events.briefs.get(frame as usize) {
        Some(event) => put_begun_by(out, input, event, frame),
        None => put_numbered(out, "routine ", frame),
    }
}
