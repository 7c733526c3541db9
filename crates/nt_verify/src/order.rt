//! Whether locks are acquired in rising order.
ghost use Rattle.std.specs.Prelude.{◌≡◌, IsTrue, length, map};
ghost use Rattle.std.specs.List.{flat_map, list_all};
ghost use Rattle.nt_event.specs.Lists.{table};
ghost use Rattle.nt_event.specs.Numbers.{apc as apc_no};
ghost use Rattle.nt_event.specs.Script.{fits};
ghost use Rattle.nt_verify.specs.Findings.{is_ordered, is_ordered_at, rises_in};
ghost use Rattle.nt_verify.specs.Sites.{apc_sites, dpc_sites, isr_site, site_if, thread_sites};

use crate::Site;
use crate::site::{apc_count, dpc_count, dpc_site, has_normal, thread_count};
use crate::walk::Walk;
use nt_event::{ApcNo, Command, DpcNo, Isr, Script, ThreadNo};

/// Whether each routine acquires its locks in rising order: at each site, each acquire that isn't
/// expected to be refused names a lock whose number is above that of every lock held there.
///
/// It takes no memory, and time linear in the commands of all sites.
pub fn ordered(script: &Script) -> bool
    requires { IsTrue (fits script.now) }
    ensures { result ≡ is_ordered script.now }
{
    isrs_are_ordered(script, script.isrs.as_slice())
        && dpcs_are_ordered(script)
        && threads_are_ordered(script)
        && apcs_are_ordered(script)
}

fn isrs_are_ordered(script: &Script, isrs: &[Isr]) -> bool
    requires { IsTrue (fits script.now) }
    ensures { result ≡ list_all (is_ordered_at script.now) (map isr_site isrs.now) }
{
    for isr in isrs {
        if !is_ordered(script, &Site::Isr(isr.cpu, isr.level)) {
            return false;
        }
    }
    true
}

fn dpcs_are_ordered(script: &Script) -> bool
    requires { IsTrue (fits script.now) }
    ensures { result ≡ list_all (is_ordered_at script.now) (dpc_sites script.now) }
{
    for d in 0..dpc_count(script) {
        if !is_ordered(script, &dpc_site(script, DpcNo(d))) {
            return false;
        }
    }
    true
}

fn threads_are_ordered(script: &Script) -> bool
    requires { IsTrue (fits script.now) }
    ensures { result ≡ list_all (is_ordered_at script.now) (thread_sites script.now) }
{
    for t in 0..thread_count(script) {
        if !is_ordered(script, &Site::Base(ThreadNo(t))) {
            return false;
        }
    }
    true
}

fn apcs_are_ordered(script: &Script) -> bool
    requires { IsTrue (fits script.now) }
    ensures { result ≡ list_all (is_ordered_at script.now)
        (flat_map (apc_sites script.now) (table (length script.now.apcs) apc_no)) }
{
    for a in 0..apc_count(script) {
        if !apc_is_ordered(script, ApcNo(a)) {
            return false;
        }
    }
    true
}

fn apc_is_ordered(script: &Script, apc: ApcNo) -> bool
    requires { IsTrue (fits script.now) }
    ensures { result ≡ list_all (is_ordered_at script.now) (apc_sites script.now apc) }
{
    is_ordered(script, &Site::Kernel(apc))
        && is_ordered_if(has_normal(script, apc), script, &Site::Normal(apc))
        && is_ordered_if(
            script.rundown_of(apc).is_some(),
            script,
            &Site::Rundown(apc),
        )
}

/// Whether a routine does so that may be left out.
fn is_ordered_if(has: bool, script: &Script, site: &Site) -> bool
    requires { IsTrue (fits script.now) }
    ensures { result ≡ list_all (is_ordered_at script.now) (site_if has site.now) }
{
    !has || is_ordered(script, site)
}

/// Whether the routine of one site does so.
fn is_ordered(script: &Script, site: &Site) -> bool
    requires { IsTrue (fits script.now) }
    ensures { result ≡ is_ordered_at script.now site.now }
{
    let mut walk = Walk::begin(script, site);
    let commands = site.commands(script);
    for command in commands {
        if !rises(&walk, command) {
            return false;
        }
        walk.call(command);
    }
    true
}

/// Whether the command is no acquire, or is refused, or its lock is above all that are held.
fn rises(walk: &Walk, command: &Command) -> bool
    ensures { result ≡ rises_in walk.now command.now }
{
    match command {
        Command::Acquire(lock) => walk.refusal(command).is_some() || walk.is_above(*lock),
        Command::Raise(_)
        | Command::Lower(_)
        | Command::Queue(_)
        | Command::Unqueue(_)
        | Command::SetImportance(_, _)
        | Command::SetTarget(_, _)
        | Command::SetTimer(_, _, _)
        | Command::CancelTimer(_)
        | Command::InsertApc(_)
        | Command::RemoveApc(_)
        | Command::EnterCrit
        | Command::EnterGuard
        | Command::LeaveCrit
        | Command::LeaveGuard
        | Command::StartWait(_, _)
        | Command::Delay(_, _, _)
        | Command::Release(_)
        | Command::Alert(_, _)
        | Command::TestAlert(_)
        | Command::Interrupt(_, _)
        | Command::Clock(_)
        | Command::ToUser
        | Command::Yield
        | Command::Unlock(_)
        | Command::Note(_) => true,
    }
}
