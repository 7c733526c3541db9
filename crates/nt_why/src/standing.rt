//! The tests of an object that waits, by what its processor keeps and what stands in the lanes.
ghost use Rattle.std.specs.Prelude.{◌≡◌, ◌<◌, IfSome, IsTrue, Some, find};
ghost use Rattle.nt_event.specs.Apcs.{is_of_kind as kind_is};
ghost use Rattle.nt_event.specs.Jobs.{level_at};
ghost use Rattle.nt_event.specs.Lanes.{facts_at};
ghost use Rattle.nt_event.specs.Routines.{part_of as part_in};
ghost use Rattle.nt_event.specs.Script.{has_cpu};
ghost use Rattle.nt_why.specs.Fates.{last_insert, thing_of};
ghost use Rattle.nt_why.specs.Moments.{IsAt, IsTold, WaitsOn, past_of};
ghost use Rattle.nt_why.specs.Says.{class_of as class_in, first_apc, first_of as first_in};
ghost use Rattle.nt_why.specs.Says.{lets as lets_in, lets_dpc, top_of as top_in};
ghost use Rattle.nt_why.specs.Watches.{since as since_in};
ghost use Rattle.nt_why.specs.declared.watch.Watch.{Watch};

use crate::fates::{Object, is_found};
use crate::question::Question;
use crate::reasons::{Reason, Request, Stood, Top};
use nt_apc::ApcQueues;
use nt_cpu::Cpu;
use nt_event::{ApcKind, CpuNo, DpcNo, Part, Pick, Script, ThreadNo, class};
use nt_frame::Frames;
use nt_plain::PlainFloor;
use nt_states::LaneAnswers;

/// The part of a queue in which the object stands.
fn part_of(script: &Script, dpc: DpcNo) -> Part
    ensures { result ≡ part_in script.now dpc }
{
    if script.is_threaded(dpc) {
        Part::Threaded
    } else {
        Part::Ordinary
    }
}

/// The class by which a processor begins the object.
pub(crate) fn class_of(script: &Script, object: Object) -> u8
    ensures class { result ≡ class_in script.now object }
    ensures used { result < 16 }
{
    match object {
        Object::Dpc(dpc) => match part_of(script, dpc) {
            Part::Ordinary => class::DISPATCH,
            Part::Threaded => class::THREADED,
        },
        Object::Apc(_) => class::APC,
    }
}

fn lets_dpc(part: Part, cpu: &Cpu<'_>) -> bool
    ensures { result ≡ lets_dpc part cpu.now.own }
{
    let level = cpu.frames().level().number();
    match part {
        Part::Ordinary => level < 2,
        Part::Threaded => level == 0 && !cpu.frames().has_own(),
    }
}

/// Whether the processor's level lets the object through.
fn lets(script: &Script, object: Object, cpu: &Cpu<'_>) -> bool
    ensures { result ≡ lets_in script.now object cpu.now.own }
{
    match object {
        Object::Dpc(dpc) => lets_dpc(part_of(script, dpc), cpu),
        Object::Apc(_) => cpu.frames().level().number() == 0,
    }
}

fn top_of(frames: &Frames) -> Option<Top>
    ensures { result ≡ top_in frames.now }
{
    match frames.innermost() {
        Some(frame) => Some(Top {
            body: frame.body,
            number: frame.frame,
        }),
        None => None,
    }
}

/// How the processor of this number stands, since this event.
pub(crate) fn stood(p: CpuNo, cpu: &Cpu<'_>, since: Option<u64>) -> Stood
    ensures cpu { result.cpu ≡ p }
    ensures level { result.level ≡ level_at cpu.now.own }
    ensures top { result.top ≡ top_in cpu.now.own.frames }
    ensures since { result.since ≡ since }
{
    Stood {
        cpu: p,
        level: cpu.frames().level(),
        top: top_of(cpu.frames()),
        since,
    }
}

/// Whether the level of the processor of this number, as it stands since this event, lets the
/// object through.
pub(crate) fn level_line(
    question: &Question<'_>,
    p: CpuNo,
    cpu: &Cpu<'_>,
    floor: &PlainFloor<'_>,
    since: Option<u64>,
) -> Reason
    ensures { IsAt question.now p cpu.now floor.now → WaitsOn question.now p →
        since ≡ since_in question.now.script.now (Watch.Stand p) (past_of question.now) →
        IsTold question.now result }
{
    let _floor = floor;
    let stood = stood(p, cpu, since);
    if lets(question.script, question.object, cpu) {
        Reason::Stands(stood)
    } else {
        Reason::TooHigh(stood)
    }
}

/// Whether the insert is of an APC of this kind.
fn is_of_kind(kind: ApcKind, pick: &Pick) -> bool
    ensures { result ≡ kind_is kind pick.now }
{
    kind == pick.kind
}

/// The oldest of these inserts that is of this kind; they stand with the oldest first.
fn first_of_kind(items: &[Pick], kind: ApcKind) -> Option<Pick>
    ensures { result ≡ find (kind_is kind) items.now }
{
    items.iter().copied().find(|pick| is_of_kind(kind, pick))
}

/// The APC that is taken first among those of the kind, where kernel APCs stand in one row.
fn first_apc(apcs: &ApcQueues, kind: ApcKind) -> Option<Pick>
    ensures { result ≡ first_apc kind apcs.now }
{
    match kind {
        ApcKind::Special | ApcKind::Normal => {
            match first_of_kind(apcs.pending(), ApcKind::Special) {
                Some(pick) => Some(pick),
                None => first_of_kind(apcs.pending(), ApcKind::Normal),
            }
        }
        ApcKind::User => apcs.user_first(),
    }
}

/// The first APC of a thread among those of the kind.
fn first_at(floor: &PlainFloor<'_>, owner: ThreadNo, kind: ApcKind) -> Option<Pick>
    ensures { result ≡ first_apc kind (facts_at floor.now.lanes owner).apcs }
{
    match floor.threads().states().get(usize::from(owner.0)) {
        Some(state) => first_apc(state.apcs(), kind),
        None => None,
    }
}

/// The insert that is taken next where the object waits.
fn first_of(
    script: &Script,
    floor: &PlainFloor<'_>,
    p: CpuNo,
    object: Object,
) -> Option<(Object, u64)>
    requires cpu { IsTrue (has_cpu floor.now.script p) }
    ensures { result ≡ first_in script.now floor.now.lanes p object }
{
    match object {
        Object::Dpc(dpc) => match floor.states().first(part_of(script, dpc), p) {
            Some((first, at)) => Some((Object::Dpc(first), at)),
            None => None,
        },
        Object::Apc(apc) => {
            match first_at(floor, script.owner_of(apc), script.kind_of(apc)) {
                Some(pick) => Some((Object::Apc(pick.apc), pick.number)),
                None => None,
            }
        }
    }
}

/// Whether the object is the first where it waits, or behind which one.
pub(crate) fn first_line(
    question: &Question<'_>,
    p: CpuNo,
    cpu: &Cpu<'_>,
    floor: &PlainFloor<'_>,
) -> Option<Reason>
    requires cpu { IsTrue (has_cpu floor.now.script p) }
    ensures { IfSome result (λ r. IsAt question.now p cpu.now floor.now →
        WaitsOn question.now p → IsTold question.now r) }
{
    let _cpu = cpu;
    match first_of(question.script, floor, p, question.object) {
        Some((first, at)) => {
            if is_found(question.object, Some(first)) {
                Some(Reason::First { cpu: p })
            } else {
                Some(Reason::Behind { cpu: p, first, at })
            }
        }
        None => None,
    }
}

/// Whether the object's class was asked for, noticed and served, where the last request was noticed
/// by this event.
pub(crate) fn asked_line(
    question: &Question<'_>,
    p: CpuNo,
    cpu: &Cpu<'_>,
    floor: &PlainFloor<'_>,
    since: Option<u64>,
) -> Option<Reason>
    ensures { IfSome result (λ r. IsAt question.now p cpu.now floor.now →
        WaitsOn question.now p → since ≡ since_in question.now.script.now
        (Watch.Seen p (class_in question.now.script.now question.now.object))
        (past_of question.now) → IsTold question.now r) }
{
    let class = class_of(question.script, question.object);
    let request = Request { cpu: p, class };
    let asked = floor.asked(p, class);
    let seen = cpu.seen().value[usize::from(class)];
    let served = cpu.served().value[usize::from(class)];
    if seen < asked {
        return Some(Reason::Unnoticed {
            request,
            at: asked - 1,
        });
    }
    if seen <= served {
        return Some(Reason::NotAsked(request));
    }
    if asked == 0 {
        return None;
    }
    Some(Reason::Noticed {
        request,
        at: asked - 1,
        since,
    })
}

/// That the insert of this number asked for nothing, where it didn't.
pub(crate) fn insert_line(
    question: &Question<'_>,
    p: CpuNo,
    cpu: &Cpu<'_>,
    floor: &PlainFloor<'_>,
    at: u64,
) -> Option<Reason>
    ensures { IfSome result (λ r. IsAt question.now p cpu.now floor.now →
        WaitsOn question.now p →
        last_insert (thing_of question.now.object) (past_of question.now) ≡ Some at →
        IsTold question.now r) }
{
    let _cpu = cpu;
    let class = class_of(question.script, question.object);
    if floor.asks(at, p, class) {
        return None;
    }
    Some(Reason::AskedNothing {
        request: Request { cpu: p, class },
        at,
    })
}

/// That the processor is cut, where it is.
pub(crate) fn cut_line(
    question: &Question<'_>,
    p: CpuNo,
    cpu: &Cpu<'_>,
    floor: &PlainFloor<'_>,
) -> Option<Reason>
    ensures { IfSome result (λ r. IsAt question.now p cpu.now floor.now →
        WaitsOn question.now p → IsTold question.now r) }
{
    let _floor = floor;
    if question.turns <= cpu.made() {
        Some(Reason::Cut(p))
    } else {
        None
    }
}
