//! What the threads answer. All of them are here, so they may be asked of each.
ghost use Rattle.std.specs.Prelude.{◌≡◌, ◌<◌, ◌&&◌, ◌==◌, Some, length};
ghost use Rattle.std.specs.Option.{option_or};
ghost use Rattle.nt_event.specs.Jobs.{is_after as comes_after};
ghost use Rattle.nt_event.specs.Numbers.{thread};
ghost use Rattle.nt_event.specs.Threads as spec;
ghost use Rattle.nt_thread.specs.Replies.{reply_of};
ghost use Rattle.nt_states.specs.ThreadLanes.{facts_in};

use crate::Threads;
use nt_event::{ApcNo, CpuNo, Level, Mode, Pick, Regions, Reply, ThreadDecl, ThreadNo};
use nt_states::ThreadAnswers;
use nt_thread::{WaitAnswer, WaitSpec};

impl<'s> ThreadAnswers for Threads<'s> {
    ghost script_of = { λ x. x.script };

    ghost facts = { λ x. x.facts };

    ghost tells = { λ x p. Unit {0} };

    fn next_ready(&self, p: CpuNo, after: Option<ThreadNo>) -> Option<ThreadNo> {
        let mut first = None;
        for (place, decl) in self.script.threads.as_slice().iter().enumerate() {
            let t = self.thread_at(place);
            if self.is_free(p, t, decl) {
                if is_after(after, t) {
                    return Some(t);
                }
                first = or(first, t);
            }
        }
        first
    }

    fn any_ready(&self, p: CpuNo) -> bool {
        self.next_ready(p, None).is_some()
    }

    fn may_take(&self, p: CpuNo, t: ThreadNo) -> bool {
        (t.0 as usize) < self.script.threads.len()
            && self.script.cpu_of(t).0 == p.0
            && self.is_ready(t)
    }

    fn is_gone(&self, t: ThreadNo) -> bool {
        self.state(t).is_gone()
    }

    fn status(&self, t: ThreadNo) -> Option<u32> {
        self.state(t).status()
    }

    fn level(&self, t: ThreadNo) -> Level {
        self.state(t).level()
    }

    fn wait_reply(
        &self,
        t: ThreadNo,
        regions: Regions,
        level: Level,
        mode: Mode,
        alertable: bool,
        reached: Option<bool>,
    ) -> Reply {
        let spec = WaitSpec {
            mode,
            alertable,
            reached,
            set: 0,
        };
        reply(self.state(t).wait_answer(spec, regions, level))
    }

    fn is_alerted(&self, t: ThreadNo, mode: Mode) -> bool {
        self.state(t).was_alerted(mode)
    }

    fn ends_by_release(&self, t: ThreadNo) -> bool {
        self.state(t).ends_by_release()
    }

    fn ends_by_expiry(&self, t: ThreadNo, from: u64) -> bool {
        self.state(t).ends_by_expiry(from)
    }

    fn ends_by_alert(&self, t: ThreadNo, mode: Mode) -> bool {
        self.state(t).ends_by_alert(mode)
    }

    fn deliverable(&self, t: ThreadNo, regions: Regions, level: Level) -> Option<Pick> {
        self.ours(t);
        self.state(t).deliverable(regions, level)
    }

    fn user_due(&self, t: ThreadNo) -> Option<Pick> {
        self.ours(t);
        self.state(t).user_due()
    }

    fn user_first(&self, t: ThreadNo) -> Option<Pick> {
        self.ours(t);
        self.state(t).user_first()
    }

    fn has_kernel(&self, t: ThreadNo) -> bool {
        self.state(t).has_kernel()
    }

    fn takes(&self, a: ApcNo) -> bool {
        self.owner(a).takes(a)
    }

    fn is_inserted(&self, a: ApcNo) -> bool {
        self.inserted[a.0 as usize]
    }

    fn ends_by_apc(&self, a: ApcNo) -> bool {
        self.owner(a).ends_by_apc(self.script.kind_of(a))
    }
}

impl<'s> Threads<'s> {
    /// The thread at this place in the script's list.
    fn thread_at(&self, place: usize) -> ThreadNo
        requires { place < length self.now.script.threads }
        ensures { result ≡ thread place }
    {
        let _script = self.script;
        ThreadNo(place as u16)
    }

    /// Whether the thread that is declared so is one of the processor's, and ready.
    fn is_free(&self, p: CpuNo, t: ThreadNo, decl: &ThreadDecl) -> bool
        requires { t.0 < length self.now.script.threads }
        ensures { result ≡ ((decl.now.cpu.0 == p.0) && spec.is_ready (facts_in self.now t)) }
    {
        decl.cpu.0 == p.0 && self.is_ready(t)
    }
}

/// Whether the thread comes after the one that was taken last; where none was, each does.
fn is_after(last: Option<ThreadNo>, t: ThreadNo) -> bool
    ensures { result ≡ comes_after last t }
{
    match last {
        Some(last) => last.0 < t.0,
        None => true,
    }
}

/// The first one, where there is one so far.
fn or(first: Option<ThreadNo>, t: ThreadNo) -> Option<ThreadNo>
    ensures { result ≡ option_or first (Some t) }
{
    match first {
        Some(_) => first,
        None => Some(t),
    }
}

/// What the answer of a wait is as a reply.
fn reply(answer: WaitAnswer) -> Reply
    ensures { result ≡ reply_of answer }
{
    match answer {
        WaitAnswer::Now(status) => Reply::Status(status),
        WaitAnswer::Blocked => Reply::Blocked,
    }
}
