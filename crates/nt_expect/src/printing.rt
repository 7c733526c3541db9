//! The text of expectations.
ghost use Rattle.std.specs.Prelude.{◌≡◌, ◌++◌, ◌∷◌, [], codes, decimal, true, false, map};
ghost use Rattle.std.specs.Prelude.{IfOk, OnOk};
ghost use Rattle.std.specs.List.{join_with_byte};
ghost use Rattle.std.specs.Fmt.{digits};
ghost use Rattle.nt_text.specs.Lines.{row_text, rows_text, spaced};
ghost use Rattle.nt_line.specs.Rows.{command_row};
ghost use Rattle.nt_script.specs.Sound.{IsSound};
ghost use Rattle.nt_expect.specs.Expectations.{activity_fits, activity_row, done_row, expect_row};
ghost use Rattle.nt_expect.specs.Expectations.{expectation_fits, expectation_row, expectations_fit};
ghost use Rattle.nt_expect.specs.Expectations.{expectations_text, expected_row, is_always};
ghost use Rattle.nt_expect.specs.Expectations.{quantifier, reply_row, watched_fits, watched_row};
ghost use Rattle.nt_event.specs.Script.{command_fits, has_apc, has_dpc, has_lock, has_thread};
ghost use Rattle.nt_event.specs.Script.{has_timer};
ghost use Rattle.nt_line.specs.NameLists.{show_apc, show_dpc, show_lock, show_thread, show_timer};

use crate::expectations::{Activity, Expectation, NamedReply, Watched};
use nt_event::{ApcNo, Command, DpcNo, LockNo, ThreadNo, TimerNo};
use nt_line::put_command;
use nt_script::Input;
use nt_text::{put_field, put_number};
use std::alloc::{AllocError, Global};

/// Adds the name of a DPC object.
fn put_dpc(out: &mut Vec<u8>, input: &Input, dpc: DpcNo) -> Result<(), AllocError>
    requires sound { IsSound input.now }
    requires fits { has_dpc input.now.script dpc ≡ true }
    ensures { OnOk result
        (out.new.items ≡ out.old.items ++ spaced (show_dpc input.now.names dpc ∷ [])) }
{
    put_field(out, input.names.dpc(dpc).as_bytes())
}

/// Adds the name of an APC object.
fn put_apc(out: &mut Vec<u8>, input: &Input, apc: ApcNo) -> Result<(), AllocError>
    requires sound { IsSound input.now }
    requires fits { has_apc input.now.script apc ≡ true }
    ensures { OnOk result
        (out.new.items ≡ out.old.items ++ spaced (show_apc input.now.names apc ∷ [])) }
{
    put_field(out, input.names.apc(apc).as_bytes())
}

/// Adds the name of a thread.
fn put_thread(out: &mut Vec<u8>, input: &Input, thread: ThreadNo) -> Result<(), AllocError>
    requires sound { IsSound input.now }
    requires fits { has_thread input.now.script thread ≡ true }
    ensures { OnOk result
        (out.new.items ≡ out.old.items ++ spaced (show_thread input.now.names thread ∷ [])) }
{
    put_field(out, input.names.thread(thread).as_bytes())
}

/// Adds the name of a timer.
fn put_timer(out: &mut Vec<u8>, input: &Input, timer: TimerNo) -> Result<(), AllocError>
    requires sound { IsSound input.now }
    requires fits { has_timer input.now.script timer ≡ true }
    ensures { OnOk result
        (out.new.items ≡ out.old.items ++ spaced (show_timer input.now.names timer ∷ [])) }
{
    put_field(out, input.names.timer(timer).as_bytes())
}

/// Adds the name of a spin lock.
fn put_lock(out: &mut Vec<u8>, input: &Input, lock: LockNo) -> Result<(), AllocError>
    requires sound { IsSound input.now }
    requires fits { has_lock input.now.script lock ≡ true }
    ensures { OnOk result
        (out.new.items ≡ out.old.items ++ spaced (show_lock input.now.names lock ∷ [])) }
{
    put_field(out, input.names.lock(lock).as_bytes())
}

/// Adds what is begun.
fn put_activity(out: &mut Vec<u8>, input: &Input, activity: Activity) -> Result<(), AllocError>
    requires sound { IsSound input.now }
    requires fits { activity_fits input.now.script activity ≡ true }
    ensures { OnOk result
        (out.new.items ≡ out.old.items ++ spaced (activity_row input.now.names activity)) }
{
    match activity {
        Activity::Int(level) => {
            out.extend_from_slice(b" int")?;
            put_number(out, u64::from(level.number()))
        }
        Activity::Dpc(dpc) => {
            out.extend_from_slice(b" dpc")?;
            put_dpc(out, input, dpc)
        }
        Activity::Apc(apc) => {
            out.extend_from_slice(b" apc")?;
            put_apc(out, input, apc)
        }
        Activity::Thread(thread) => {
            out.extend_from_slice(b" thread")?;
            put_thread(out, input, thread)
        }
    }
}

/// Adds a number in hexadecimal.
fn put_hexadecimal(out: &mut Vec<u8>, number: u32) -> Result<(), AllocError>
    ensures { OnOk result (out.new.items ≡ out.old.items ++ spaced (digits 16 false number ∷ [])) }
{
    let text = format!(in *out.allocator(); "{number:x}")?;
    put_field(out, text.as_bytes())
}

/// Adds a reply.
fn put_reply(out: &mut Vec<u8>, reply: NamedReply) -> Result<(), AllocError>
    ensures { OnOk result (out.new.items ≡ out.old.items ++ spaced (reply_row reply)) }
{
    match reply {
        NamedReply::Yes => out.extend_from_slice(b" yes"),
        NamedReply::No => out.extend_from_slice(b" no"),
        NamedReply::Done => out.extend_from_slice(b" done"),
        NamedReply::Blocked => out.extend_from_slice(b" blocked"),
        NamedReply::Status(code) => {
            out.extend_from_slice(b" status")?;
            put_hexadecimal(out, code)
        }
        NamedReply::Refused => out.extend_from_slice(b" refused"),
        NamedReply::Spin => out.extend_from_slice(b" spin"),
    }
}

/// Adds a command as in the script.
fn put_called(out: &mut Vec<u8>, input: &Input, command: &Command) -> Result<(), AllocError>
    requires sound { IsSound input.now }
    requires fits { command_fits input.now.script command.now ≡ true }
    ensures { OnOk result
        (out.new.items ≡ out.old.items ++ spaced (command_row input.now.names command.now)) }
{
    out.push(b' ')?;
    put_command(out, &input.names, command)
}

/// Adds a command and its reply.
fn put_call(
    out: &mut Vec<u8>,
    input: &Input,
    command: &Command,
    reply: NamedReply,
) -> Result<(), AllocError>
    requires sound { IsSound input.now }
    requires fits { command_fits input.now.script command.now ≡ true }
    ensures { OnOk result (out.new.items ≡ out.old.items
        ++ spaced (command_row input.now.names command.now ++ codes "->" ∷ reply_row reply)) }
{
    put_called(out, input, command)?;
    out.extend_from_slice(b" ->")?;
    put_reply(out, reply)
}

/// Adds an event that is watched for, with a blank before each of its fields. An error is want of
/// memory, and the text may then have more at its end.
pub fn put_watched(out: &mut Vec<u8>, input: &Input, event: &Watched) -> Result<(), AllocError>
    requires sound { IsSound input.now }
    requires fits { watched_fits input.now.script event.now ≡ true }
    ensures { OnOk result
        (out.new.items ≡ out.old.items ++ spaced (watched_row input.now.names event.now)) }
{
    match event {
        Watched::Note(number) => {
            out.extend_from_slice(b" note")?;
            put_number(out, u64::from(*number))
        }
        Watched::Refused => out.extend_from_slice(b" refused"),
        Watched::Begin(activity) => {
            out.extend_from_slice(b" begin")?;
            put_activity(out, input, *activity)
        }
        Watched::Expire(timer) => {
            out.extend_from_slice(b" expire timer")?;
            put_timer(out, input, *timer)
        }
        Watched::Gone(thread) => {
            out.extend_from_slice(b" gone")?;
            put_thread(out, input, *thread)
        }
        Watched::Call(command, reply) => {
            out.extend_from_slice(b" call")?;
            put_call(out, input, command, *reply)
        }
    }
}

/// Adds two events with a word between them.
fn put_pair(
    out: &mut Vec<u8>,
    input: &Input,
    event: &Watched,
    word: &[u8],
    other: &Watched,
) -> Result<(), AllocError>
    requires sound { IsSound input.now }
    requires fits { watched_fits input.now.script event.now ≡ true }
    requires other_fits { watched_fits input.now.script other.now ≡ true }
    ensures { OnOk result (out.new.items ≡ out.old.items ++ spaced
        (watched_row input.now.names event.now
        ++ word.now ∷ watched_row input.now.names other.now)) }
{
    put_watched(out, input, event)?;
    put_field(out, word)?;
    put_watched(out, input, other)
}

/// Adds an event, a word and a number behind it.
fn put_bound(
    out: &mut Vec<u8>,
    input: &Input,
    event: &Watched,
    word: &[u8],
    number: u8,
) -> Result<(), AllocError>
    requires sound { IsSound input.now }
    requires fits { watched_fits input.now.script event.now ≡ true }
    ensures { OnOk result (out.new.items ≡ out.old.items ++ spaced
        (watched_row input.now.names event.now ++ word.now ∷ decimal number ∷ [])) }
{
    put_watched(out, input, event)?;
    put_field(out, word)?;
    put_number(out, u64::from(number))
}

/// Adds an event that comes twice.
fn put_twice(out: &mut Vec<u8>, input: &Input, event: &Watched) -> Result<(), AllocError>
    requires sound { IsSound input.now }
    requires fits { watched_fits input.now.script event.now ≡ true }
    ensures { OnOk result (out.new.items ≡ out.old.items
        ++ spaced (watched_row input.now.names event.now ++ codes "twice" ∷ [])) }
{
    put_watched(out, input, event)?;
    put_field(out, b"twice")
}

/// Adds two activities on two processors.
fn put_with(
    out: &mut Vec<u8>,
    input: &Input,
    one: Activity,
    other: Activity,
) -> Result<(), AllocError>
    requires sound { IsSound input.now }
    requires fits { activity_fits input.now.script one ≡ true }
    requires other_fits { activity_fits input.now.script other ≡ true }
    ensures { OnOk result (out.new.items ≡ out.old.items ++ spaced
        (activity_row input.now.names one ++ codes "with" ∷ activity_row input.now.names other)) }
{
    put_activity(out, input, one)?;
    out.extend_from_slice(b" with")?;
    put_activity(out, input, other)
}

/// Adds a DPC object that waits.
fn put_waiting_dpc(out: &mut Vec<u8>, input: &Input, dpc: DpcNo) -> Result<(), AllocError>
    requires sound { IsSound input.now }
    requires fits { has_dpc input.now.script dpc ≡ true }
    ensures { OnOk result (out.new.items ≡ out.old.items
        ++ spaced (codes "waits" ∷ codes "dpc" ∷ show_dpc input.now.names dpc ∷ [])) }
{
    out.extend_from_slice(b" waits dpc")?;
    put_dpc(out, input, dpc)
}

/// Adds an APC object that waits.
fn put_waiting_apc(out: &mut Vec<u8>, input: &Input, apc: ApcNo) -> Result<(), AllocError>
    requires sound { IsSound input.now }
    requires fits { has_apc input.now.script apc ≡ true }
    ensures { OnOk result (out.new.items ≡ out.old.items
        ++ spaced (codes "waits" ∷ codes "apc" ∷ show_apc input.now.names apc ∷ [])) }
{
    out.extend_from_slice(b" waits apc")?;
    put_apc(out, input, apc)
}

/// Adds what stands behind the first field.
fn put_expected(out: &mut Vec<u8>, input: &Input, expected: &Expectation) -> Result<(), AllocError>
    requires sound { IsSound input.now }
    requires fits { expectation_fits input.now.script expected.now ≡ true }
    ensures { OnOk result
        (out.new.items ≡ out.old.items ++ spaced (expected_row input.now.names expected.now)) }
{
    match expected {
        Expectation::Never(event) => put_watched(out, input, event),
        Expectation::NeverAfter(event, other) => put_pair(out, input, event, b"after", other),
        Expectation::NeverBefore(event, other) => put_pair(out, input, event, b"before", other),
        Expectation::NeverTwice(event) => put_twice(out, input, event),
        Expectation::NeverAbove(event, level) => {
            put_bound(out, input, event, b"above", level.number())
        }
        Expectation::NeverOn(event, cpu) => put_bound(out, input, event, b"on", cpu.0),
        Expectation::NeverWith(one, other) => put_with(out, input, *one, *other),
        Expectation::NeverWaitsDpc(dpc) => put_waiting_dpc(out, input, *dpc),
        Expectation::NeverWaitsApc(apc) => put_waiting_apc(out, input, *apc),
        Expectation::NeverBlocked(thread) => {
            out.extend_from_slice(b" blocked")?;
            put_thread(out, input, *thread)
        }
        Expectation::NeverSpins(lock) => {
            out.extend_from_slice(b" spins")?;
            put_lock(out, input, *lock)
        }
        Expectation::Always(event) => put_watched(out, input, event),
        Expectation::AlwaysEnds => out.extend_from_slice(b" ends"),
    }
}

/// How the line begins.
fn quantifier(expectation: &Expectation) -> &'static [u8]
    ensures { result.now ≡ quantifier (is_always expectation.now) }
{
    match expectation {
        Expectation::Never(_)
        | Expectation::NeverAfter(_, _)
        | Expectation::NeverBefore(_, _)
        | Expectation::NeverTwice(_)
        | Expectation::NeverAbove(_, _)
        | Expectation::NeverOn(_, _)
        | Expectation::NeverWith(_, _)
        | Expectation::NeverWaitsDpc(_)
        | Expectation::NeverWaitsApc(_)
        | Expectation::NeverBlocked(_)
        | Expectation::NeverSpins(_) => b"never",
        Expectation::Always(_) | Expectation::AlwaysEnds => b"always",
    }
}

/// Adds the line of an expectation that names things of the input's script, without the line's end.
/// An error is want of memory, and the text may then have more at its end.
pub fn put_expectation(
    out: &mut Vec<u8>,
    input: &Input,
    expectation: &Expectation,
) -> Result<(), AllocError>
    requires sound { IsSound input.now }
    requires fits { expectation_fits input.now.script expectation.now ≡ true }
    ensures { OnOk result (out.new.items ≡ out.old.items
        ++ join_with_byte 32 (expectation_row input.now.names expectation.now)) }
{
    out.extend_from_slice(quantifier(expectation))?;
    put_expected(out, input, expectation)?;
    Ok(())
}

/// Adds the line of an expectation.
fn put_line(out: &mut Vec<u8>, input: &Input, expectation: &Expectation) -> Result<(), AllocError>
    requires sound { IsSound input.now }
    requires fits { expectation_fits input.now.script expectation.now ≡ true }
    ensures { OnOk result (out.new.items
        ≡ out.old.items ++ row_text (expectation_row input.now.names expectation.now)) }
{
    put_expectation(out, input, expectation)?;
    out.push(b'\n')?;
    Ok(())
}

fn put_lines(
    out: &mut Vec<u8>,
    input: &Input,
    expectations: &[Expectation],
) -> Result<(), AllocError>
    requires sound { IsSound input.now }
    requires fit { expectations_fit input.now.script expectations.now ≡ true }
    ensures { OnOk result (out.new.items ≡ out.old.items
        ++ rows_text (map (expectation_row input.now.names) expectations.now)) }
{
    for expectation in expectations {
        put_line(out, input, expectation)?;
    }
    Ok(())
}

fn put_head(out: &mut Vec<u8>) -> Result<(), AllocError>
    ensures { OnOk result (out.new.items ≡ out.old.items ++ row_text expect_row) }
{
    out.extend_from_slice(b"expect\n")
}

fn put_end(out: &mut Vec<u8>) -> Result<(), AllocError>
    ensures { OnOk result (out.new.items ≡ out.old.items ++ row_text done_row) }
{
    out.extend_from_slice(b"done\n")
}

fn put_expectations(
    out: &mut Vec<u8>,
    input: &Input,
    expectations: &[Expectation],
) -> Result<(), AllocError>
    requires sound { IsSound input.now }
    requires fit { expectations_fit input.now.script expectations.now ≡ true }
    ensures { OnOk result
        (out.new.items ≡ out.old.items ++ expectations_text input.now expectations.now) }
{
    put_head(out)?;
    put_lines(out, input, expectations)?;
    put_end(out)
}

/// The text of expectations that name things of the input's script. An error is want of memory.
pub fn print_expectations(
    alloc: Global,
    input: &Input,
    expectations: &[Expectation],
) -> Result<Vec<u8>, AllocError>
    requires sound { IsSound input.now }
    requires fit { expectations_fit input.now.script expectations.now ≡ true }
    ensures { IfOk result (λ text. text.items ≡ expectations_text input.now expectations.now) }
{
    let mut out = Vec::new(alloc);
    put_expectations(&mut out, input, expectations)?;
    Ok(out)
}
