//! What may stand in a field of a line, one function for each kind of field. Each tests in the
//! order of the refusals.
ghost use Rattle.std.specs.Prelude.{◌≡◌, ◌≤◌, find, IfOk, None};
ghost use Rattle.std.specs.Str.{bytes_eq};
ghost use Rattle.std.specs.Result.{result_map_both};
ghost use Rattle.nt_line.specs.NameLists.{meaning};
ghost use Rattle.nt_event.specs.Classes.{is_requested_level, is_isr_level};
ghost use Rattle.nt_line.specs.Fields.{read_number, read_level, read_interrupt, read_isr_level};
ghost use Rattle.nt_line.specs.Fields.{read_cpu, read_target, read_importance, read_mode};
ghost use Rattle.nt_line.specs.Fields.{read_alertable, read_on_off, read_flag, importance_text};
ghost use Rattle.nt_line.specs.Fields.{mode_text, alertable_text, on_off_text};
ghost use Rattle.nt_line.specs.Fields.{used, read_dpc, read_timer, read_thread, read_apc};
ghost use Rattle.nt_line.specs.Fields.{read_lock, read_routine, read_timer_dpc, read_rundown};
ghost use Rattle.nt_line.specs.Fields.{new_name};

use crate::names::{Named, Names};
use nt_event::{
    ApcNo, CpuNo, DpcNo, Importance, Level, LockNo, Mode, RoutineNo, ThreadNo, TimerNo, class,
};
use nt_text::{ScriptKind, name};

/// Every importance.
pub const IMPORTANCES: [Importance; 4] = [
    Importance::Low,
    Importance::Medium,
    Importance::MediumHigh,
    Importance::High,
];

/// A number of at most `most`.
pub fn number(field: &[u8], most: u32) -> Result<u32, ScriptKind>
    ensures value { result ≡ read_number most field.now }
    ensures within { IfOk result (λ n. n ≤ most) }
{
    match nt_text::number(field, most as u64) {
        Some(n) => Ok(n as u32),
        None => Err(ScriptKind::BadNumber),
    }
}

/// A level, 0 to 15.
pub fn level(field: &[u8]) -> Result<Level, ScriptKind>
    ensures { result ≡ read_level field.now }
{
    let n = number(field, 15)?;
    Level::new(n as u8).ok_or(ScriptKind::BadNumber)
}

/// Whether `interrupt` may request this level: 3 to 11 or 14.
fn is_requested_level(n: u32) -> bool
    ensures { result ≡ is_requested_level n }
{
    (3 <= n && n <= 11) || n == 14
}

/// The level of an `interrupt` command.
pub fn interrupt(field: &[u8]) -> Result<Level, ScriptKind>
    ensures { result ≡ read_interrupt field.now }
{
    let n = number(field, 15)?;
    if !is_requested_level(n) {
        return Err(ScriptKind::BadNumber);
    }
    Level::new(n as u8).ok_or(ScriptKind::BadNumber)
}

/// The level of an `isr` line: one that may be requested, or the clock's.
pub fn isr_level(field: &[u8]) -> Result<Level, ScriptKind>
    ensures { result ≡ read_isr_level field.now }
{
    let n = number(field, 15)?;
    if !(is_requested_level(n) || n == u32::from(class::CLOCK)) {
        return Err(ScriptKind::BadNumber);
    }
    Level::new(n as u8).ok_or(ScriptKind::BadNumber)
}

/// A processor below the count of processors.
pub fn cpu(cpus: u8, field: &[u8]) -> Result<CpuNo, ScriptKind>
    ensures { result ≡ read_cpu cpus field.now }
{
    let n = number(field, 255)? as u8;
    if n < cpus {
        Ok(CpuNo(n))
    } else {
        Err(ScriptKind::BadNumber)
    }
}

/// A processor, or `own` for no target.
pub fn target(cpus: u8, field: &[u8]) -> Result<Option<CpuNo>, ScriptKind>
    ensures { result ≡ read_target cpus field.now }
{
    if field == b"own".as_slice() {
        return Ok(None);
    }
    Ok(Some(cpu(cpus, field)?))
}

/// An importance as it is written.
pub fn importance_text(importance: Importance) -> &'static [u8]
    ensures { result.now ≡ importance_text importance }
{
    match importance {
        Importance::Low => b"low",
        Importance::Medium => b"medium",
        Importance::MediumHigh => b"mediumhigh",
        Importance::High => b"high",
    }
}

fn search(importances: &[Importance], field: &[u8]) -> Option<Importance>
    ensures { result ≡ find (λ i. bytes_eq field.now (importance_text i)) importances.now }
{
    importances
        .iter()
        .copied()
        .find(|i| field == importance_text(*i))
}

/// An importance.
#[tactic(auto, unfolding(crate::specs::Fields::read_importance))]
pub fn importance(field: &[u8]) -> Result<Importance, ScriptKind>
    ensures { result ≡ read_importance field.now }
{
    search(&IMPORTANCES, field).ok_or(ScriptKind::UnknownWord)
}

/// A mode as it is written.
pub fn mode_text(mode: Mode) -> &'static [u8]
    ensures { result.now ≡ mode_text mode }
{
    match mode {
        Mode::Kernel => b"kernel",
        Mode::User => b"user",
    }
}

/// `kernel` or `user`.
pub fn mode(field: &[u8]) -> Result<Mode, ScriptKind>
    ensures { result ≡ read_mode field.now }
{
    if field == b"kernel".as_slice() {
        return Ok(Mode::Kernel);
    }
    if field == b"user".as_slice() {
        return Ok(Mode::User);
    }
    Err(ScriptKind::UnknownWord)
}

/// One of two words.
fn flag(on: &[u8], off: &[u8], field: &[u8]) -> Result<bool, ScriptKind>
    ensures { result ≡ read_flag on.now off.now field.now }
{
    if field == on {
        return Ok(true);
    }
    if field == off {
        return Ok(false);
    }
    Err(ScriptKind::UnknownWord)
}

/// Whether a wait is alertable, as it is written.
pub fn alertable_text(alertable: bool) -> &'static [u8]
    ensures { result.now ≡ alertable_text alertable }
{
    if alertable { b"alertable" } else { b"plain" }
}

/// `alertable` or `plain`.
pub fn alertable(field: &[u8]) -> Result<bool, ScriptKind>
    ensures { result ≡ read_alertable field.now }
{
    flag(b"alertable", b"plain", field)
}

/// Whether something is on, as it is written.
pub fn on_off_text(on: bool) -> &'static [u8]
    ensures { result.now ≡ on_off_text on }
{
    if on { b"on" } else { b"off" }
}

/// `on` or `off`.
pub fn on_off(field: &[u8]) -> Result<bool, ScriptKind>
    ensures { result ≡ read_on_off field.now }
{
    flag(b"on", b"off", field)
}

/// The thing of a name that some line declares.
fn used(names: &Names, field: &[u8]) -> Result<Named, ScriptKind>
    ensures { result ≡ used names.now field.now }
{
    match name(field) {
        Some(name) => names.find(name).ok_or(ScriptKind::UnknownName),
        None => Err(ScriptKind::BadName),
    }
}

/// A DPC object by its name.
pub fn dpc(names: &Names, field: &[u8]) -> Result<DpcNo, ScriptKind>
    ensures { result ≡ read_dpc names.now field.now }
{
    match used(names, field)? {
        Named::Dpc(d) => Ok(d),
        _ => Err(ScriptKind::WrongKind),
    }
}

/// A timer by its name.
pub fn timer(names: &Names, field: &[u8]) -> Result<TimerNo, ScriptKind>
    ensures { result ≡ read_timer names.now field.now }
{
    match used(names, field)? {
        Named::Timer(t) => Ok(t),
        _ => Err(ScriptKind::WrongKind),
    }
}

/// A thread by its name.
pub fn thread(names: &Names, field: &[u8]) -> Result<ThreadNo, ScriptKind>
    ensures { result ≡ read_thread names.now field.now }
{
    match used(names, field)? {
        Named::Thread(t) => Ok(t),
        _ => Err(ScriptKind::WrongKind),
    }
}

/// An APC object by its name.
pub fn apc(names: &Names, field: &[u8]) -> Result<ApcNo, ScriptKind>
    ensures { result ≡ read_apc names.now field.now }
{
    match used(names, field)? {
        Named::Apc(a) => Ok(a),
        _ => Err(ScriptKind::WrongKind),
    }
}

/// A spin lock by its name.
pub fn lock(names: &Names, field: &[u8]) -> Result<LockNo, ScriptKind>
    ensures { result ≡ read_lock names.now field.now }
{
    match used(names, field)? {
        Named::Lock(l) => Ok(l),
        _ => Err(ScriptKind::WrongKind),
    }
}

/// A routine by its name.
pub fn routine(names: &Names, field: &[u8]) -> Result<RoutineNo, ScriptKind>
    ensures { result ≡ read_routine names.now field.now }
{
    match used(names, field)? {
        Named::Routine(r) => Ok(r),
        _ => Err(ScriptKind::WrongKind),
    }
}

/// The DPC object of a timer, or `-` for none.
pub fn timer_dpc(names: &Names, field: &[u8]) -> Result<Option<DpcNo>, ScriptKind>
    ensures { result ≡ read_timer_dpc names.now field.now }
{
    if field == b"-".as_slice() {
        return Ok(None);
    }
    Ok(Some(dpc(names, field)?))
}

/// The rundown routine of a user APC, or `-` for none.
pub fn rundown(names: &Names, field: &[u8]) -> Result<Option<RoutineNo>, ScriptKind>
    ensures { result ≡ read_rundown names.now field.now }
{
    if field == b"-".as_slice() {
        return Ok(None);
    }
    Ok(Some(routine(names, field)?))
}

/// A name that no line before declares.
pub fn new_name<'a>(names: &Names, field: &'a [u8]) -> Result<&'a str, ScriptKind>
    ensures value { result_map_both (λ s. s.now) (λ e. e) result ≡ new_name names.now field.now }
    ensures new { IfOk result (λ name. meaning name.now names.now ≡ None) }
{
    match name(field) {
        Some(name) => {
            if names.find(name).is_some() {
                Err(ScriptKind::NameTwice)
            } else {
                Ok(name)
            }
        }
        None => Err(ScriptKind::BadName),
    }
}
