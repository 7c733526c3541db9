//! The text of reasons: a line each, with `* ` before those that hold the thing back.
ghost use Rattle.std.specs.Prelude.{◌<◌, IsTrue, length};
ghost use Rattle.nt_line.specs.Fits.{CommandNamed};
ghost use Rattle.nt_script.specs.Sound.{IsSound};

use crate::fates::{Fate, Object};
use crate::reasons::{Away, Does, Pending, Reason, Request, Sort, Stood, Top};
use crate::things::Thing;
use nt_event::{
    ApcKind, ApcNo, Begun, Body, Command, CpuNo, DpcNo, Level, LockNo, Mode, Regions, ScheduleKind,
    Setting, ThreadNo, TimerKey, TimerNo, What,
};
use nt_line::fields;
use nt_script::{Input, put_command};
use nt_text::put_digits;
use std::alloc::{AllocError, Global};

type Text = Vec<u8>;

/// Adds these bytes.
fn put(out: &mut Text, bytes: &[u8]) -> Result<(), AllocError> {
    out.extend_from_slice(bytes)
}

/// Adds these bytes and a number.
fn put_at(out: &mut Text, bytes: &[u8], number: u64) -> Result<(), AllocError> {
    put(out, bytes)?;
    put_digits(out, number)
}

fn put_cpu(out: &mut Text, p: CpuNo) -> Result<(), AllocError> {
    put_at(out, b"p", u64::from(p.0))
}

/// Adds ` since` and the number, or that it was so from the start.
fn put_since(out: &mut Text, since: Option<u64>) -> Result<(), AllocError> {
    match since {
        Some(number) => put_at(out, b" since ", number),
        None => put(out, b" from the start"),
    }
}

fn put_dpc(out: &mut Text, input: &Input, dpc: DpcNo) -> Result<(), AllocError>
    requires { IsSound input.now }
{
    if usize::from(dpc.0) < input.script.dpcs.len() {
        put(out, b"dpc ")?;
        put(out, input.names.dpc(dpc).as_bytes())
    } else {
        put_at(out, b"dpc number ", u64::from(dpc.0))
    }
}

fn put_apc(out: &mut Text, input: &Input, apc: ApcNo) -> Result<(), AllocError>
    requires { IsSound input.now }
{
    if usize::from(apc.0) < input.script.apcs.len() {
        put(out, b"apc ")?;
        put(out, input.names.apc(apc).as_bytes())
    } else {
        put_at(out, b"apc number ", u64::from(apc.0))
    }
}

fn put_thread(out: &mut Text, input: &Input, thread: ThreadNo) -> Result<(), AllocError>
    requires { IsSound input.now }
{
    if usize::from(thread.0) < input.script.threads.len() {
        put(out, input.names.thread(thread).as_bytes())
    } else {
        put_at(out, b"thread number ", u64::from(thread.0))
    }
}

fn put_timer(out: &mut Text, input: &Input, timer: TimerNo) -> Result<(), AllocError>
    requires { IsSound input.now }
{
    if usize::from(timer.0) < input.script.timers.len() {
        put(out, b"timer ")?;
        put(out, input.names.timer(timer).as_bytes())
    } else {
        put_at(out, b"timer number ", u64::from(timer.0))
    }
}

fn put_lock(out: &mut Text, input: &Input, lock: LockNo) -> Result<(), AllocError>
    requires { IsSound input.now }
{
    if lock.0 < input.script.locks {
        put(out, input.names.lock(lock).as_bytes())
    } else {
        put_at(out, b"lock number ", u64::from(lock.0))
    }
}

fn put_object(out: &mut Text, input: &Input, object: Object) -> Result<(), AllocError>
    requires { IsSound input.now }
{
    match object {
        Object::Dpc(dpc) => put_dpc(out, input, dpc),
        Object::Apc(apc) => put_apc(out, input, apc),
    }
}

fn put_thing(out: &mut Text, input: &Input, thing: &Thing) -> Result<(), AllocError>
    requires { IsSound input.now }
{
    match thing {
        Thing::Object(object) => put_object(out, input, *object),
        Thing::Interrupt(p, level) => {
            put_at(out, b"int ", u64::from(level.number()))?;
            put(out, b" of ")?;
            put_cpu(out, *p)
        }
        Thing::Thread(thread) => put_thread(out, input, *thread),
        Thing::Timer(timer) => put_timer(out, input, *timer),
    }
}

/// The word of an APC object's kind.
fn kind_word(kind: ApcKind) -> &'static [u8] {
    match kind {
        ApcKind::Special => b"special",
        ApcKind::Normal => b"normal",
        ApcKind::User => b"user",
    }
}

fn put_body(out: &mut Text, input: &Input, body: &Body) -> Result<(), AllocError>
    requires { IsSound input.now }
{
    match body {
        Body::Int(level) => put_at(out, b"int ", u64::from(level.number())),
        Body::Dpc(dpc) => put_dpc(out, input, *dpc),
        Body::Threaded(dpc) => {
            put(out, b"threaded ")?;
            put_dpc(out, input, *dpc)
        }
        Body::Apc(apc, _) => put_apc(out, input, *apc),
        Body::Base(thread) => {
            put(out, b"base ")?;
            put_thread(out, input, *thread)
        }
        Body::Rundown(apc) => {
            put(out, b"rundown of ")?;
            put_apc(out, input, *apc)
        }
    }
}

fn put_top(out: &mut Text, input: &Input, top: &Option<Top>) -> Result<(), AllocError>
    requires { IsSound input.now }
{
    match top {
        Some(top) => {
            put(out, b": ")?;
            put_body(out, input, &top.body)?;
            put_at(out, b", frame ", top.number)
        }
        None => put(out, b": no routine runs"),
    }
}

fn put_stood(out: &mut Text, input: &Input, stood: &Stood) -> Result<(), AllocError>
    requires { IsSound input.now }
{
    put_cpu(out, stood.cpu)?;
    put_at(out, b" is at level ", u64::from(stood.level.number()))?;
    put_since(out, stood.since)?;
    put_top(out, input, &stood.top)
}

/// What became of an insert.
fn put_fate(out: &mut Text, fate: Fate) -> Result<(), AllocError> {
    match fate {
        Fate::Begun(n) => put_at(out, b"begun at ", n),
        Fate::Removed(n) => put_at(out, b"removed at ", n),
        Fate::Flushed(n) => put_at(out, b"flushed at ", n),
        Fate::Waits => put(out, b"waits at the end"),
    }
}

fn put_pending(
    out: &mut Text,
    input: &Input,
    thing: &Thing,
    insert: &Pending,
) -> Result<(), AllocError>
    requires { IsSound input.now }
{
    put_thing(out, input, thing)?;
    match insert.sort {
        Sort::Dpc(importance) => {
            put(out, b" is queued on ")?;
            put_cpu(out, insert.cpu)?;
            put_at(out, b" since ", insert.at)?;
            put(out, b": ")?;
            put(out, fields::importance_text(importance))?;
        }
        Sort::Apc(thread, kind) => {
            put(out, b" is inserted for ")?;
            put_thread(out, input, thread)?;
            put_at(out, b" since ", insert.at)?;
            put(out, b": ")?;
            put(out, kind_word(kind))?;
        }
    }
    put(out, b", by ")?;
    put_cpu(out, insert.by)
}

/// Adds `class C of pQ`.
fn put_request(out: &mut Text, request: &Request) -> Result<(), AllocError> {
    put_at(out, b"class ", u64::from(request.class))?;
    put(out, b" of ")?;
    put_cpu(out, request.cpu)
}

/// Adds which wait it is.
fn put_wait(
    out: &mut Text,
    delay: bool,
    mode: Mode,
    alertable: bool,
    level: Level,
) -> Result<(), AllocError> {
    put(out, if delay { b", delay " } else { b", wait " })?;
    put(out, fields::mode_text(mode))?;
    put(out, b" ")?;
    put(out, fields::alertable_text(alertable))?;
    put_at(out, b", at level ", u64::from(level.number()))
}

fn put_does(out: &mut Text, does: &Does, since: Option<u64>) -> Result<(), AllocError> {
    match does {
        Does::IsReady => {
            put(out, b"ready")?;
            put_since(out, since)
        }
        Does::IsRunning => {
            put(out, b"running")?;
            put_since(out, since)
        }
        Does::IsBlocked {
            at,
            delay,
            mode,
            alertable,
            level,
        } => {
            put_at(out, b"blocked since ", *at)?;
            put_wait(out, *delay, *mode, *alertable, *level)
        }
        Does::IsGone => {
            put(out, b"gone")?;
            put_since(out, since)
        }
    }
}

fn put_away(out: &mut Text, input: &Input, away: &Away) -> Result<(), AllocError>
    requires { IsSound input.now }
{
    put_thread(out, input, away.thread)?;
    put(out, b" isn't running on ")?;
    put_cpu(out, away.cpu)?;
    put(out, b": ")?;
    put_does(out, &away.does, away.since)?;
    match away.runs {
        Some(other) => {
            put(out, b"; ")?;
            put_thread(out, input, other)?;
            put(out, b" runs")
        }
        None => Ok(()),
    }
}

/// What of the regions holds the object back.
fn put_regions(
    out: &mut Text,
    input: &Input,
    thread: ThreadNo,
    regions: &Regions,
) -> Result<(), AllocError>
    requires { IsSound input.now }
{
    put_thread(out, input, thread)?;
    if regions.guard != 0 {
        return put(out, b" is in a guarded region");
    }
    if regions.crit != 0 {
        return put(out, b" is in a critical region");
    }
    put(out, b" has a normal APC in progress")
}

/// Whether the script has the thing that a command names.
fn is_named(input: &Input, command: &Command) -> bool
    requires { IsSound input.now }
    ensures { IsTrue result → CommandNamed input.now.names command.now }
{
    match command {
        Command::Queue(d)
        | Command::Unqueue(d)
        | Command::SetImportance(d, _)
        | Command::SetTarget(d, _) => usize::from(d.0) < input.script.dpcs.len(),
        Command::SetTimer(t, _, _) | Command::CancelTimer(t) => {
            usize::from(t.0) < input.script.timers.len()
        }
        Command::InsertApc(a) | Command::RemoveApc(a) => {
            usize::from(a.0) < input.script.apcs.len()
        }
        Command::Release(t) | Command::Alert(t, _) => {
            usize::from(t.0) < input.script.threads.len()
        }
        Command::Acquire(k) | Command::Unlock(k) => k.0 < input.script.locks,
        Command::Raise(_)
        | Command::Lower(_)
        | Command::EnterCrit
        | Command::EnterGuard
        | Command::LeaveCrit
        | Command::LeaveGuard
        | Command::StartWait(_, _)
        | Command::Delay(_, _, _)
        | Command::TestAlert(_)
        | Command::Interrupt(_, _)
        | Command::Clock(_)
        | Command::ToUser
        | Command::Yield
        | Command::Note(_) => true,
    }
}

fn put_call(out: &mut Text, input: &Input, frame: u64, command: &Command) -> Result<(), AllocError>
    requires { IsSound input.now }
{
    put_at(out, b"call ", frame)?;
    put(out, b" ")?;
    if is_named(input, command) {
        put_command(out, &input.names, command)
    } else {
        put(out, b"of a thing that the script lacks")
    }
}

fn put_begun(out: &mut Text, input: &Input, begun: &Begun) -> Result<(), AllocError>
    requires { IsSound input.now }
{
    put(out, b"begin ")?;
    match begun {
        Begun::Int(level) => put_at(out, b"int ", u64::from(level.number())),
        Begun::Dpc(dpc) => put_dpc(out, input, *dpc),
        Begun::Threaded(dpc) => {
            put(out, b"threaded ")?;
            put_dpc(out, input, *dpc)
        }
        Begun::Apc(apc) => put_apc(out, input, *apc),
    }
}

/// Adds the timer, or the delay of a thread.
fn put_key(out: &mut Text, input: &Input, key: &TimerKey) -> Result<(), AllocError>
    requires { IsSound input.now }
{
    match key {
        TimerKey::Timer(timer) => put_timer(out, input, *timer),
        TimerKey::Delay(thread) => {
            put(out, b"delay ")?;
            put_thread(out, input, *thread)
        }
    }
}

/// What an event does that is no call, begin or expiry.
fn put_other(out: &mut Text, input: &Input, what: &What) -> Result<(), AllocError>
    requires { IsSound input.now }
{
    match what {
        What::Call { .. } => put(out, b"call"),
        What::Look { .. } => put(out, b"look"),
        What::Begin { .. } => put(out, b"begin"),
        What::Normal { frame } => put_at(out, b"normal ", *frame),
        What::End { frame } => put_at(out, b"end ", *frame),
        What::Expire { .. } => put(out, b"expire"),
        What::Fire { dpc, .. } => {
            put(out, b"fire ")?;
            put_dpc(out, input, *dpc)
        }
        What::Clean { class } => put_at(out, b"clean ", u64::from(*class)),
        What::Switch { thread, .. } => {
            put(out, b"switch ")?;
            put_thread(out, input, *thread)
        }
        What::Rewait { frame, .. } => put_at(out, b"rewait ", *frame),
        What::Flush { apc, .. } => {
            put(out, b"flush ")?;
            put_apc(out, input, *apc)
        }
        What::Gone { thread } => {
            put(out, b"gone ")?;
            put_thread(out, input, *thread)
        }
        What::Free { frame, lock } => {
            put_at(out, b"free ", *frame)?;
            put(out, b" ")?;
            put_lock(out, input, *lock)
        }
        What::Rest => put(out, b"rest"),
    }
}

fn put_what(out: &mut Text, input: &Input, what: &What) -> Result<(), AllocError>
    requires { IsSound input.now }
{
    match what {
        What::Call { frame, command, .. } => put_call(out, input, *frame, command),
        What::Begin { begun, .. } => put_begun(out, input, begun),
        What::Expire { key, .. } => {
            put(out, b"expire ")?;
            put_key(out, input, key)
        }
        What::Look { .. }
        | What::Normal { .. }
        | What::End { .. }
        | What::Fire { .. }
        | What::Clean { .. }
        | What::Switch { .. }
        | What::Rewait { .. }
        | What::Flush { .. }
        | What::Gone { .. }
        | What::Free { .. }
        | What::Rest => put_other(out, input, what),
    }
}

/// Why a turn of a processor is refused.
fn cause_words(kind: ScheduleKind) -> &'static [u8] {
    match kind {
        ScheduleKind::NoSuchCpu => b"the script has no such processor",
        ScheduleKind::NothingToDo => b"it has nothing to do, or is cut",
        ScheduleKind::BadLook => b"nothing is to be noticed",
        ScheduleKind::BadChoice => b"the thread isn't ready, or other work comes first",
        ScheduleKind::Unfinished => b"there is more to do",
    }
}

fn put_no_next(out: &mut Text, p: CpuNo, kind: ScheduleKind) -> Result<(), AllocError> {
    put_cpu(out, p)?;
    put(out, b" has no next event: ")?;
    put(out, cause_words(kind))
}

/// Adds that the object is the first where it waits.
fn put_first(out: &mut Text, thing: &Thing) -> Result<(), AllocError> {
    match thing {
        Thing::Object(Object::Dpc(_)) => put(out, b"it is the first of its part"),
        Thing::Object(Object::Apc(_)) => put(out, b"it is the first APC of its kind there"),
        Thing::Interrupt(_, _) | Thing::Thread(_) | Thing::Timer(_) => put(out, b"it is the first"),
    }
}

/// Adds at which event it happens, or that it doesn't.
fn put_then_at(out: &mut Text, done: &[u8], not: &[u8], fate: Fate) -> Result<(), AllocError> {
    match fate {
        Fate::Begun(n) => put_at(out, done, n),
        Fate::Removed(_) | Fate::Flushed(_) | Fate::Waits => put(out, not),
    }
}

/// Adds which event begins the thing, takes up the thread or expires the timer.
fn put_then(out: &mut Text, thing: &Thing, fate: Fate) -> Result<(), AllocError> {
    put(out, b"then: ")?;
    match thing {
        Thing::Object(_) => put_fate(out, fate),
        Thing::Interrupt(_, _) => put_then_at(out, b"begun at ", b"not begun any more", fate),
        Thing::Thread(_) => put_then_at(out, b"taken up at ", b"not taken up any more", fate),
        Thing::Timer(_) => put_then_at(out, b"expires at ", b"does not expire any more", fate),
    }
}

/// Adds that the timer isn't set, and when it expired.
fn put_not_set(
    out: &mut Text,
    input: &Input,
    timer: TimerNo,
    expired: Option<u64>,
) -> Result<(), AllocError>
    requires { IsSound input.now }
{
    put_timer(out, input, timer)?;
    put(out, b" isn't set")?;
    match expired {
        Some(number) => put_at(out, b"; it last expired at ", number),
        None => Ok(()),
    }
}

/// Adds when the timer was set, and when it is due.
fn put_set(
    out: &mut Text,
    input: &Input,
    timer: TimerNo,
    setting: &Setting,
) -> Result<(), AllocError>
    requires { IsSound input.now }
{
    put_timer(out, input, timer)?;
    put_at(out, b" is set since ", setting.number)?;
    put_at(out, b": due at ", setting.due)?;
    if setting.period == 0 {
        return Ok(());
    }
    put_at(out, b", period ", u64::from(setting.period))
}

/// Adds what is told of a timer.
fn put_timer_reason(out: &mut Text, input: &Input, reason: &Reason) -> Result<(), AllocError>
    requires { IsSound input.now }
{
    match reason {
        Reason::NotSet { timer, expired } => put_not_set(out, input, *timer, *expired),
        Reason::IsSet { timer, setting } => put_set(out, input, *timer, setting),
        Reason::IsDue { time, .. } => put_at(out, b"it is due: the time is ", *time),
        Reason::NotDue { time, .. } => put_at(out, b"it isn't due yet: the time is ", *time),
        Reason::ExpiresFirst { key, at } => {
            put_key(out, input, key)?;
            put_at(out, b", set at ", *at)?;
            put(out, b", expires first")
        }
        Reason::OwesSweep(p) => {
            put_cpu(out, *p)?;
            put(out, b" owes a sweep of the timers")
        }
        Reason::NoSweep => put(out, b"no processor owes a sweep of the timers"),
        Reason::NeverInserted
        | Reason::Ended { .. }
        | Reason::Waits(_)
        | Reason::First { .. }
        | Reason::Behind { .. }
        | Reason::Runs(_)
        | Reason::NotRunning(_)
        | Reason::InRegions { .. }
        | Reason::Stands(_)
        | Reason::TooHigh(_)
        | Reason::Noticed { .. }
        | Reason::Unnoticed { .. }
        | Reason::NotAsked(_)
        | Reason::AskedNothing { .. }
        | Reason::Cut(_)
        | Reason::Next { .. }
        | Reason::NoNext { .. }
        | Reason::Then(_)
        | Reason::Ready(_)
        | Reason::TakenFirst { .. }
        | Reason::OnOwn(_)
        | Reason::MustFirst(_)
        | Reason::NotTaken { .. } => Ok(()),
    }
}

/// Adds since when a thread is ready.
fn put_ready(out: &mut Text, input: &Input, away: &Away) -> Result<(), AllocError>
    requires { IsSound input.now }
{
    put_thread(out, input, away.thread)?;
    put(out, b" is ")?;
    put_does(out, &away.does, away.since)?;
    put(out, b"; no thread runs on ")?;
    put_cpu(out, away.cpu)
}

/// Adds that the thread can't be taken up now.
fn put_not_taken(out: &mut Text, p: CpuNo, kind: ScheduleKind) -> Result<(), AllocError> {
    put_cpu(out, p)?;
    put(out, b" can't take it up now: ")?;
    put(out, cause_words(kind))
}

/// Adds which event noticed a request.
fn put_noticed(out: &mut Text, at: Option<u64>) -> Result<(), AllocError> {
    match at {
        Some(number) => put_at(out, b", noticed at ", number),
        None => put(out, b", noticed from the start"),
    }
}

/// Adds the sentences that speak of requests.
fn put_asked(out: &mut Text, request: &Request, at: u64) -> Result<(), AllocError> {
    put_request(out, request)?;
    put_at(out, b" was asked at ", at)
}

/// Adds one reason.
fn put_reason(
    out: &mut Text,
    input: &Input,
    thing: &Thing,
    reason: &Reason,
) -> Result<(), AllocError>
    requires { IsSound input.now }
{
    match reason {
        Reason::NeverInserted => {
            put_thing(out, input, thing)?;
            put(out, b" was never inserted")
        }
        Reason::Ended { insert, fate } => {
            put_thing(out, input, thing)?;
            put_at(out, b" isn't pending: its insert at ", *insert)?;
            put(out, b" was ")?;
            put_fate(out, *fate)
        }
        Reason::Waits(insert) => put_pending(out, input, thing, insert),
        Reason::First { .. } => put_first(out, thing),
        Reason::Behind { first, at, .. } => {
            put(out, b"behind ")?;
            put_object(out, input, *first)?;
            put_at(out, b", inserted at ", *at)
        }
        Reason::Runs(thread) => {
            put_thread(out, input, *thread)?;
            put(out, b" runs")
        }
        Reason::NotRunning(away) => put_away(out, input, away),
        Reason::InRegions { thread, regions } => put_regions(out, input, *thread, regions),
        Reason::Stands(stood) | Reason::TooHigh(stood) => put_stood(out, input, stood),
        Reason::Noticed { request, at, since } => {
            put_asked(out, request, *at)?;
            put_noticed(out, *since)
        }
        Reason::Unnoticed { request, at } => {
            put_asked(out, request, *at)?;
            put(out, b"; ")?;
            put_cpu(out, request.cpu)?;
            put(out, b" has not noticed it")
        }
        Reason::NotAsked(request) => {
            put_request(out, request)?;
            put(out, b" isn't asked")
        }
        Reason::AskedNothing { request, at } => {
            put_at(out, b"the insert at ", *at)?;
            put(out, b" did not ask for ")?;
            put_request(out, request)
        }
        Reason::Cut(p) => {
            put_cpu(out, *p)?;
            put(out, b" is cut")
        }
        Reason::Next { cpu, what } => {
            put(out, b"next on ")?;
            put_cpu(out, *cpu)?;
            put(out, b" comes: ")?;
            put_what(out, input, what)
        }
        Reason::NoNext { cpu, kind } => put_no_next(out, *cpu, *kind),
        Reason::Then(fate) => put_then(out, thing, *fate),
        Reason::Ready(away) => put_ready(out, input, away),
        Reason::TakenFirst { first, .. } => {
            put(out, b"the round-robin rule takes up ")?;
            put_thread(out, input, *first)?;
            put(out, b" first")
        }
        Reason::OnOwn(stood) => put_stood(out, input, stood),
        Reason::MustFirst(p) => {
            put_cpu(out, *p)?;
            put(out, b" has to do something else first")
        }
        Reason::NotTaken { cpu, kind } => put_not_taken(out, *cpu, *kind),
        Reason::NotSet { .. }
        | Reason::IsSet { .. }
        | Reason::IsDue { .. }
        | Reason::NotDue { .. }
        | Reason::ExpiresFirst { .. }
        | Reason::OwesSweep(_)
        | Reason::NoSweep => put_timer_reason(out, input, reason),
    }
}

/// Adds the line of one reason.
fn put_line(out: &mut Text, input: &Input, thing: &Thing, reason: &Reason) -> Result<(), AllocError>
    requires { IsSound input.now }
{
    if reason.holds_back() {
        put(out, b"* ")?;
    }
    put_reason(out, input, thing, reason)?;
    put(out, b"\n")
}

/// The text of what is told of a thing of the input's script: a line for each reason, with `* `
/// before those that say what holds it back. A number of a thing that the script lacks is written
/// as a number.
pub fn print_reasons(
    alloc: Global,
    input: &Input,
    thing: Thing,
    reasons: &[Reason],
) -> Result<Vec<u8>, AllocError>
    requires { IsSound input.now }
{
    let mut out = Vec::new(alloc);
    for reason in reasons {
        put_line(&mut out, input, &thing, reason)?;
    }
    Ok(out)
}
