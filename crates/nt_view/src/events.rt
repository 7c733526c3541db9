//! Events in words.
ghost use Rattle.nt_script.specs.Sound.{IsSound};

use crate::commands::put_command;
use crate::frames::{put_begun, put_frame};
use crate::names::{apc, dpc, lock, thread, timer};
use crate::replies::{put_answer, put_reply, put_status};
use crate::words::{put, put_class, put_numbered};
use nt_event::{Begun, Rises, ThreadNo, TimerKey};
use nt_history::{Brief, Briefs, Did};
use nt_script::Input;
use std::alloc::AllocError;

/// Adds which event is used up, in brackets.
fn put_since(out: &mut Vec<u8>, done: &str, number: u64) -> Result<(), AllocError> {
    put(out, &[" (", done])?;
    put_numbered(out, " at ", number)?;
    put(out, &[")"])
}

/// What is done to something so that it begins.
fn asking_word(begun: &Begun) -> &'static str {
    match begun {
        Begun::Int(_) => "asked",
        Begun::Dpc(_) | Begun::Threaded(_) => "queued",
        Begun::Apc(_) => "inserted",
    }
}

/// Adds the classes in which a look noticed something, the highest first.
fn put_look(out: &mut Vec<u8>, rises: &Rises) -> Result<(), AllocError> {
    let mut before = "look: ";
    for passed in 0..16u8 {
        let class = 15 - passed;
        if rises.value[usize::from(class)] != 0 {
            put(out, &[before])?;
            put_class(out, class)?;
            before = ", ";
        }
    }
    Ok(())
}

/// Adds that a timer or a delay expires.
fn put_expiry(out: &mut Vec<u8>, input: &Input, key: TimerKey) -> Result<(), AllocError>
    requires { IsSound input.now }
{
    match key {
        TimerKey::Timer(number) => put(out, &["timer ", timer(input, number), " expires"]),
        TimerKey::Delay(number) => put(out, &["delay of ", thread(input, number), " is over"]),
    }
}

/// Adds that a thread is taken up, and how its wait ended.
fn put_switch(
    out: &mut Vec<u8>,
    input: &Input,
    taken: ThreadNo,
    status: Option<u32>,
) -> Result<(), AllocError>
    requires { IsSound input.now }
{
    put(out, &["switch to ", thread(input, taken)])?;
    match status {
        Some(status) => {
            put(out, &[", its wait ends with "])?;
            put_status(out, status)
        }
        None => Ok(()),
    }
}

/// Adds the routine that this event began, between words.
fn put_framed(
    out: &mut Vec<u8>,
    input: &Input,
    events: &Briefs,
    words: (&str, u64, &str),
) -> Result<(), AllocError>
    requires { IsSound input.now }
{
    let (before, frame, behind) = words;
    put(out, &[before])?;
    put_frame(out, input, events, frame)?;
    put(out, &[behind])
}

/// Adds what an event did.
pub(crate) fn put_event(
    out: &mut Vec<u8>,
    input: &Input,
    events: &Briefs,
    event: &Brief,
) -> Result<(), AllocError>
    requires { IsSound input.now }
{
    match event.did {
        Did::Call { command, reply, .. } => {
            put_command(out, input, &command)?;
            put_answer(out, &command, reply)
        }
        Did::Look { .. } => put_look(out, &events.values(event)),
        Did::Begin { begun, from } => {
            put(out, &["begin "])?;
            put_begun(out, input, &begun)?;
            put_since(out, asking_word(&begun), from)
        }
        Did::Normal { frame } => {
            put_framed(
                out,
                input,
                events,
                ("", frame, " goes on to its normal routine"),
            )
        }
        Did::End { frame } => put_framed(out, input, events, ("end ", frame, "")),
        Did::Expire { key, from } => {
            put_expiry(out, input, key)?;
            put_since(out, "set", from)
        }
        Did::Fire { dpc: fired, reply } => {
            put(out, &["timer queues dpc ", dpc(input, fired)])?;
            put_reply(out, reply)
        }
        Did::Clean { class } => {
            put_class(out, class)?;
            put(out, &[" served"])
        }
        Did::Switch {
            thread: taken,
            status,
        } => put_switch(out, input, taken, status),
        Did::Rewait { frame, reply } => {
            put_framed(out, input, events, ("", frame, " waits again"))?;
            put_reply(out, reply)
        }
        Did::Flush { apc: flushed, from } => {
            put(out, &["flush apc ", apc(input, flushed)])?;
            put_since(out, "inserted", from)
        }
        Did::Gone { thread: gone } => put(out, &["thread ", thread(input, gone), " is gone"]),
        Did::Free { frame, lock: freed } => {
            put_framed(out, input, events, ("", frame, " ends and frees lock "))?;
            put(out, &[lock(input, freed)])
        }
        Did::Rest => put(out, &["rest"]),
    }
}
