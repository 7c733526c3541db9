//! The lines of events.
ghost use Rattle.std.specs.Prelude.{◌≡◌, ◌++◌, ◌<◌, ◌∷◌, [], true, OnOk, length};
ghost use Rattle.std.specs.List.{slice_get};
ghost use Rattle.nt_text.specs.Lines.{row_text, rows_text};
ghost use Rattle.nt_event.specs.Script.{where_given, has_thread, has_dpc, has_timer, has_apc};
ghost use Rattle.nt_event.specs.Script.{command_fits};
ghost use Rattle.nt_script.specs.Sound.{IsSound};
ghost use Rattle.nt_line.specs.Rows.{command_row, command_args};
ghost use Rattle.nt_line.specs.Keywords.{verb_text};
ghost use Rattle.nt_event.specs.Fitting.{begun_fits, key_fits, what_fits, event_fits, events_fit};
ghost use Rattle.nt_text.specs.Lines.{spaced};
ghost use Rattle.nt_history.specs.Briefs.{event_of, no_rises, what_of};
ghost use Rattle.nt_print.specs.Lent.{lent};
ghost use Rattle.nt_print.specs.Report.{show_running, begun_row, key_row, status_row, kind_of};
ghost use Rattle.nt_print.specs.Report.{kind_word, what_row, event_fields, event_row, event_rows};
ghost use Rattle.nt_print.specs.Report.{line_rows};
ghost use Rattle.nt_print.specs.Tally.{Tallies, TalliesAll};

use crate::fields::{put_replied, put_status, put_used};
use crate::tally::Tally;
use nt_event::{ApcKind, ApcNo, Begun, Command, ThreadNo, TimerKey};
use nt_history::{Brief, Briefs, Did};
use nt_script::{Input, put_command};
use nt_text::{put_digits, put_field, put_number, put_processor};
use std::alloc::AllocError;

/// Adds the thread that runs, or a dash.
fn put_running(out: &mut Vec<u8>, input: &Input, thread: Option<ThreadNo>) -> Result<(), AllocError>
    requires sound { IsSound input.now }
    requires fits { where_given (has_thread input.now.script) thread ≡ true }
    ensures { OnOk result
        (out.new.items ≡ out.old.items ++ spaced (show_running input.now.names thread ∷ [])) }
{
    match thread {
        Some(thread) => put_field(out, input.names.thread(thread).as_bytes()),
        None => out.extend_from_slice(b" -"),
    }
}

/// The word of an APC object's kind.
fn kind_word(kind: ApcKind) -> &'static [u8]
    ensures { result.now ≡ kind_word kind }
{
    match kind {
        ApcKind::Special => b"special",
        ApcKind::Normal => b"normal",
        ApcKind::User => b"user",
    }
}

fn kind_of(input: &Input, apc: ApcNo) -> &'static [u8]
    ensures { result.now ≡ kind_of (slice_get input.now.script.apcs apc.0) }
{
    match input.script.apcs.as_slice().get(apc.0 as usize) {
        Some(decl) => kind_word(decl.kind),
        None => b"",
    }
}

fn put_begun(out: &mut Vec<u8>, input: &Input, begun: &Begun) -> Result<(), AllocError>
    requires sound { IsSound input.now }
    requires fits { begun_fits input.now.script begun.now ≡ true }
    ensures { OnOk result
        (out.new.items ≡ out.old.items ++ spaced (begun_row input.now begun.now)) }
{
    match begun {
        Begun::Int(level) => {
            out.extend_from_slice(b" int")?;
            put_number(out, u64::from(level.number()))
        }
        Begun::Dpc(dpc) => {
            out.extend_from_slice(b" dpc")?;
            put_field(out, input.names.dpc(*dpc).as_bytes())
        }
        Begun::Threaded(dpc) => {
            out.extend_from_slice(b" threaded")?;
            put_field(out, input.names.dpc(*dpc).as_bytes())
        }
        Begun::Apc(apc) => {
            put_field(out, kind_of(input, *apc))?;
            put_field(out, input.names.apc(*apc).as_bytes())
        }
    }
}

fn put_key(out: &mut Vec<u8>, input: &Input, key: TimerKey) -> Result<(), AllocError>
    requires sound { IsSound input.now }
    requires fits { key_fits input.now.script key ≡ true }
    ensures { OnOk result (out.new.items ≡ out.old.items ++ spaced (key_row input.now.names key)) }
{
    match key {
        TimerKey::Timer(timer) => {
            out.extend_from_slice(b" timer")?;
            put_field(out, input.names.timer(timer).as_bytes())
        }
        TimerKey::Delay(thread) => {
            out.extend_from_slice(b" delay")?;
            put_field(out, input.names.thread(thread).as_bytes())
        }
    }
}

/// Adds a command as it stands in a script.
fn put_called(out: &mut Vec<u8>, input: &Input, command: &Command) -> Result<(), AllocError>
    requires sound { IsSound input.now }
    requires fits { command_fits input.now.script command.now ≡ true }
    ensures { OnOk result
        (out.new.items ≡ out.old.items ++ spaced (command_row input.now.names command.now)) }
{
    out.push(b' ')?;
    put_command(out, &input.names, command)?;
    Ok(())
}

/// Adds what an event other than a look did.
fn put_what(out: &mut Vec<u8>, input: &Input, did: &Did) -> Result<(), AllocError>
    requires sound { IsSound input.now }
    requires fits { what_fits input.now.script (what_of no_rises did.now) ≡ true }
    ensures { OnOk result
        (out.new.items ≡ out.old.items ++ spaced (what_row input.now (what_of no_rises did.now))) }
{
    match did {
        Did::Call {
            frame,
            command,
            reply,
        } => {
            out.extend_from_slice(b" call")?;
            put_number(out, *frame)?;
            put_called(out, input, command)?;
            put_replied(out, *reply)
        }
        Did::Look { .. } => Ok(()),
        Did::Begin { begun, from } => {
            out.extend_from_slice(b" begin")?;
            put_begun(out, input, begun)?;
            put_used(out, *from)
        }
        Did::Normal { frame } => {
            out.extend_from_slice(b" normal")?;
            put_number(out, *frame)
        }
        Did::End { frame } => {
            out.extend_from_slice(b" end")?;
            put_number(out, *frame)
        }
        Did::Expire { key, from } => {
            out.extend_from_slice(b" expire")?;
            put_key(out, input, *key)?;
            put_used(out, *from)
        }
        Did::Fire { dpc, reply } => {
            out.extend_from_slice(b" fire")?;
            put_field(out, input.names.dpc(*dpc).as_bytes())?;
            put_replied(out, *reply)
        }
        Did::Clean { class } => {
            out.extend_from_slice(b" clean")?;
            put_number(out, u64::from(*class))
        }
        Did::Switch { thread, status } => {
            out.extend_from_slice(b" switch")?;
            put_field(out, input.names.thread(*thread).as_bytes())?;
            match status {
                Some(status) => put_status(out, *status),
                None => Ok(()),
            }
        }
        Did::Rewait { frame, reply } => {
            out.extend_from_slice(b" rewait")?;
            put_number(out, *frame)?;
            put_replied(out, *reply)
        }
        Did::Flush { apc, from } => {
            out.extend_from_slice(b" flush")?;
            put_field(out, input.names.apc(*apc).as_bytes())?;
            put_used(out, *from)
        }
        Did::Gone { thread } => {
            out.extend_from_slice(b" gone")?;
            put_field(out, input.names.thread(*thread).as_bytes())
        }
        Did::Free { frame, lock } => {
            out.extend_from_slice(b" free")?;
            put_number(out, *frame)?;
            put_field(out, input.names.lock(*lock).as_bytes())
        }
        Did::Rest => out.extend_from_slice(b" rest"),
    }
}

/// Adds what stands behind an event's number.
fn put_event_fields(out: &mut Vec<u8>, input: &Input, event: &Brief) -> Result<(), AllocError>
    requires sound { IsSound input.now }
    requires fits { event_fits input.now.script (event_of no_rises event.now) ≡ true }
    ensures { OnOk result (out.new.items
        ≡ out.old.items ++ spaced (event_fields input.now (event_of no_rises event.now))) }
{
    put_processor(out, u64::from(event.cpu.0))?;
    put_running(out, input, event.thread)?;
    put_number(out, u64::from(event.level.number()))?;
    put_what(out, input, &event.did)
}

fn put_event(out: &mut Vec<u8>, input: &Input, number: u64, event: &Brief) -> Result<(), AllocError>
    requires sound { IsSound input.now }
    requires fits { event_fits input.now.script (event_of no_rises event.now) ≡ true }
    ensures { OnOk result (out.new.items
        ≡ out.old.items ++ row_text (event_row input.now number (event_of no_rises event.now))) }
{
    put_digits(out, number)?;
    put_event_fields(out, input, event)?;
    out.push(b'\n')?;
    Ok(())
}

/// Adds the lines of the events, in order, and tallies the events. A look has no line.
pub(crate) fn put_events(
    out: &mut Vec<u8>,
    input: &Input,
    events: &Briefs,
    tally: &mut Tally,
) -> Result<(), AllocError>
    requires sound { IsSound input.now }
    requires fit { events_fit input.now.script (lent events.now) ≡ true }
    requires tally { Tallies input.now.script (lent events.now) 0 tally.old }
    ensures lines { OnOk result
        (out.new.items ≡ out.old.items ++ rows_text (event_rows input.now 0 (lent events.now))) }
    ensures tally { OnOk result (TalliesAll input.now.script (lent events.now) tally.new) }
{
    for (number, event) in events.briefs.iter().enumerate() {
        tally.note_event(&input.script, events, number);
        put_line(out, input, number as u64, event)?;
    }
    Ok(())
}

/// Adds the line of an event, where it has one. No line has the values of a look.
fn put_line(out: &mut Vec<u8>, input: &Input, number: u64, event: &Brief) -> Result<(), AllocError>
    requires sound { IsSound input.now }
    requires fits { event_fits input.now.script (event_of no_rises event.now) ≡ true }
    ensures { OnOk result (out.new.items ≡ out.old.items ++ rows_text (line_rows input.now number
        (event_of no_rises event.now) (what_of no_rises event.now.did))) }
{
    match event.did {
        Did::Look { .. } => Ok(()),
        Did::Call { .. }
        | Did::Begin { .. }
        | Did::Normal { .. }
        | Did::End { .. }
        | Did::Expire { .. }
        | Did::Fire { .. }
        | Did::Clean { .. }
        | Did::Switch { .. }
        | Did::Rewait { .. }
        | Did::Flush { .. }
        | Did::Gone { .. }
        | Did::Free { .. }
        | Did::Rest => put_event(out, input, number, event),
    }
}
