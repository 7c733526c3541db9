//! The tests of an APC object that waits: its thread, and the thread's regions.
ghost use Rattle.std.specs.Prelude.{◌≡◌, IfSome};
ghost use Rattle.nt_event.specs.Apcs.{lets_through as through};
ghost use Rattle.nt_event.specs.Lanes.{facts_at};
ghost use Rattle.nt_event.specs.Numbers.{is_thread as is_it};
ghost use Rattle.nt_why.specs.Moments.{IsAt, IsCase, IsTold};
ghost use Rattle.nt_why.specs.Says.{does_of, regions_known as regions_in};

use crate::fates::Object;
use crate::question::{Case, Question};
use crate::reasons::{Away, Does, Reason};
use crate::watch::doing;
use nt_cpu::Cpu;
use nt_event::{ApcKind, CpuNo, Doing, Regions, ThreadNo};
use nt_plain::PlainFloor;

pub(crate) fn is_thread(found: Option<ThreadNo>, thread: ThreadNo) -> bool
    ensures { result ≡ is_it found thread }
{
    match found {
        Some(found) => found.0 == thread.0,
        None => false,
    }
}

/// What a thread does.
pub(crate) fn does_of(doing: &Doing) -> Does
    ensures { result ≡ does_of doing.now }
{
    match doing {
        Doing::Ready { .. } => Does::IsReady,
        Doing::Running => Does::IsRunning,
        Doing::Blocked(wait) => Does::IsBlocked {
            at: wait.event,
            delay: wait.delay,
            mode: wait.mode,
            alertable: wait.alertable,
            level: wait.level,
        },
        Doing::Gone => Does::IsGone,
    }
}

/// Whether the regions let an APC of the kind through.
fn lets_through(regions: &Regions, kind: ApcKind) -> bool
    ensures { result ≡ through regions.now kind }
{
    match kind {
        ApcKind::Special => regions.guard == 0,
        ApcKind::Normal | ApcKind::User => {
            regions.guard == 0 && (regions.crit == 0 && !regions.busy)
        }
    }
}

/// The regions of the thread, where it runs on the processor, or is blocked.
fn regions_known(cpu: &Cpu<'_>, floor: &PlainFloor<'_>, thread: ThreadNo) -> Option<Regions>
    ensures { result ≡ regions_in cpu.now.own (facts_at floor.now.lanes thread) thread }
{
    if is_thread(cpu.frames().running(), thread) {
        return Some(cpu.frames().regions());
    }
    match doing(floor, thread) {
        Doing::Blocked(wait) => Some(wait.regions),
        Doing::Ready { .. } | Doing::Running | Doing::Gone => None,
    }
}

/// Whether the thread of an APC object runs on the processor, or what it does.
pub(crate) fn runs_line(
    question: &Question<'_>,
    p: CpuNo,
    cpu: &Cpu<'_>,
    floor: &PlainFloor<'_>,
    case: &Case,
) -> Option<Reason>
    ensures { IfSome result (λ r. IsAt question.now p cpu.now floor.now →
        IsCase question.now p case.now → IsTold question.now r) }
{
    match question.object {
        Object::Dpc(_) => None,
        Object::Apc(apc) => {
            let thread = question.script.owner_of(apc);
            let runs = cpu.frames().running();
            if is_thread(runs, thread) {
                return Some(Reason::Runs(thread));
            }
            Some(Reason::NotRunning(Away {
                cpu: p,
                thread,
                does: does_of(&doing(floor, thread)),
                since: case.away,
                runs,
            }))
        }
    }
}

/// The regions of the thread of an APC object, where they don't let an APC of its kind through.
pub(crate) fn regions_line(
    question: &Question<'_>,
    p: CpuNo,
    cpu: &Cpu<'_>,
    floor: &PlainFloor<'_>,
    case: &Case,
) -> Option<Reason>
    ensures { IfSome result (λ r. IsAt question.now p cpu.now floor.now →
        IsCase question.now p case.now → IsTold question.now r) }
{
    let _case = case;
    match question.object {
        Object::Dpc(_) => None,
        Object::Apc(apc) => {
            let thread = question.script.owner_of(apc);
            let regions = regions_known(cpu, floor, thread)?;
            if lets_through(&regions, question.script.kind_of(apc)) {
                return None;
            }
            Some(Reason::InRegions { thread, regions })
        }
    }
}
