//! What is replied where a text shows no run.
ghost use Rattle.nt_lab.specs.Replies.{text_of};
ghost use Rattle.nt_shown.specs.declared.refusal.ShownRefusal.TheVariants as refusal;
ghost use Rattle.nt_shown.specs.Shown.{IsUnshown};
ghost use Rattle.nt_friendly.specs.Text.{strict_text};
ghost use Rattle.nt_bench.specs.Friendly.{IsFriendly};
ghost use Rattle.nt_bench.specs.Running.{IsUnshownReply};

use crate::friendly::Friendly;
use crate::reply::made;
use nt_ask::Status;
use nt_event::ScheduleKind;
use nt_lab::{Reply, no_memory};
use nt_people::Fault;
use nt_shown::ShownRefusal;
use nt_text::put_digits;
use std::alloc::{AllocError, Global};

/// What is wrong with a turn, in words.
pub(crate) fn turn_words(kind: ScheduleKind) -> &'static str {
    match kind {
        ScheduleKind::NoSuchCpu => "the script has no such processor",
        ScheduleKind::NothingToDo => "its processor has nothing to do there",
        ScheduleKind::BadLook => "its processor was not asked for what it looks at",
        ScheduleKind::BadChoice => "its thread cannot be taken up there",
        ScheduleKind::Unfinished => "some processor still has more to do behind the last turn",
    }
}

/// Adds that a turn of the schedule is refused.
fn put_turn(out: &mut Vec<u8>, at: u32, kind: ScheduleKind) -> Result<(), AllocError> {
    out.extend_from_slice(b"turn ")?;
    put_digits(out, u64::from(at))?;
    out.extend_from_slice(b" of the schedule is refused: ")?;
    out.extend_from_slice(turn_words(kind).as_bytes())?;
    out.extend_from_slice(b"\n")?;
    Ok(())
}

/// Adds that an event of the report is refused.
fn put_event(out: &mut Vec<u8>, number: u64) -> Result<(), AllocError> {
    out.extend_from_slice(b"event ")?;
    put_digits(out, number)?;
    out.extend_from_slice(b" of the report is not what the machine does there\n")?;
    Ok(())
}

/// The text on a turn that is refused.
fn turn_text(alloc: Global, at: u32, kind: ScheduleKind) -> Result<Vec<u8>, AllocError> {
    let mut out = Vec::new(alloc);
    put_turn(&mut out, at, kind)?;
    Ok(out)
}

/// The text on an event that is refused.
fn event_text(alloc: Global, number: u64) -> Result<Vec<u8>, AllocError> {
    let mut out = Vec::new(alloc);
    put_event(&mut out, number)?;
    Ok(out)
}

/// What is replied where a turn is refused.
fn turn_refused(alloc: Global, friendly: &Friendly<'_>, at: u32, kind: ScheduleKind) -> Reply
    requires { IsUnshown (strict_text friendly.now.bytes.now) (refusal.Turn at kind) }
    ensures { IsUnshownReply friendly.now result.status (text_of result.text) }
{
    let _friendly = friendly;
    match turn_text(alloc, at, kind) {
        Ok(text) => made(Status::Refused, text),
        Err(_) => no_memory(),
    }
}

/// What is replied where an event is refused.
fn event_refused(alloc: Global, friendly: &Friendly<'_>, number: u64) -> Reply
    requires { IsUnshown (strict_text friendly.now.bytes.now) (refusal.Event number) }
    ensures { IsUnshownReply friendly.now result.status (text_of result.text) }
{
    let _friendly = friendly;
    match event_text(alloc, number) {
        Ok(text) => made(Status::Refused, text),
        Err(_) => no_memory(),
    }
}

/// What is replied where a friendly text shows no run.
pub(crate) fn unshown(alloc: Global, friendly: &Friendly<'_>, refusal: ShownRefusal) -> Reply
    requires friendly { IsFriendly friendly.now }
    requires cause { IsUnshown (strict_text friendly.now.bytes.now) refusal }
    ensures { IsUnshownReply friendly.now result.status (text_of result.text) }
{
    match refusal {
        ShownRefusal::Script { line, kind } => friendly.refused(alloc, line, Fault::Script(kind)),
        ShownRefusal::Schedule { line, kind } => {
            friendly.refused(alloc, line, Fault::Schedule(kind))
        }
        ShownRefusal::Report { line, kind } => friendly.refused(alloc, line, Fault::Report(kind)),
        ShownRefusal::Turn { at, kind } => turn_refused(alloc, friendly, at, kind),
        ShownRefusal::Event(number) => event_refused(alloc, friendly, number),
        ShownRefusal::NoMemory => no_memory(),
    }
}
