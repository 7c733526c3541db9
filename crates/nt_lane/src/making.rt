//! Each lane before any event.
ghost use Rattle.std.specs.Prelude.{◌≡◌, ◌+◌, ◌<◌, ◌^◌, [], IfOk, IsTrue, length, vec_len};
ghost use Rattle.nt_event.specs.LaneStates.{content};
ghost use Rattle.nt_event.specs.Lanes.{lane_count, lane_number, lanes_at};
ghost use Rattle.nt_event.specs.Script.{fits, has_cpu, has_dpc, has_lock};
ghost use Rattle.nt_mark.specs.Closing.{AreNewKeepers, IsNewKeeper};

use nt_event::{CpuNo, DpcNo, Lane as LaneName, LockNo, Plan, Script};
use nt_lane_record::{Clock, Group, Holds, Lane, Object, Queue, Record, Spin};
use nt_mark::{Keeper, Shared};
use std::alloc::{AllocError, Global};
use std::marker::{Model, PhantomData};
use std::sync::Mutex;

/// The keepers of N's table that are left, of the lanes from `next` on, with empty lists.
#[derive(Drop)]
pub(crate) struct NewKeepers<N: Shared> {
    next: u32,
    keepers: Vec<Keeper>,
    of: PhantomData<N>,
}

impl<N: Shared> Model for NewKeepers<N> {
    ghost use Rattle.std.specs.Prelude.{vec_len};
    ghost use Rattle.nt_lane.specs.Making.{AreNewFrom, KeepersLeft};

    ghost Value = { KeepersLeft };

    ghost view = { λ a. record { next = a.next; count = vec_len a.keepers } };

    ghost invariant = { λ a. AreNewFrom N.table a.next a.keepers.items };
}

impl<N: Shared> NewKeepers<N> {
    /// All keepers, in order.
    pub(crate) fn new(keepers: Vec<Keeper>) -> NewKeepers<N>
        requires { AreNewKeepers N.table keepers.items }
        ensures { (result.next ≡ 0) × (result.count ≡ vec_len keepers) }
    {
        NewKeepers {
            next: 0,
            keepers,
            of: PhantomData,
        }
    }

    /// The number of the next lane, and its keeper.
    fn take(&mut self) -> (u32, Keeper)
        requires some { 0 < self.old.count }
        requires few { self.old.next + self.old.count < 2 ^ 32 }
        ensures new { IsNewKeeper N.table result.0 result.1 }
        ensures number { result.0 ≡ self.old.next }
        ensures next { self.new.next ≡ self.old.next + 1 }
        ensures count { self.new.count + 1 ≡ self.old.count }
    {
        let number = self.next;
        let keeper = self.keepers.remove(0);
        self.next = number + 1;
        (number, keeper)
    }
}

/// The lane of a state before any event.
fn opening<N: Plan + Shared, S: Holds + Drop>(
    alloc: Global,
    script: &Script,
    state: S,
    number: u32,
    keeper: Keeper,
) -> Result<Lane<N, S>, AllocError>
    requires script { script.now ≡ N.script }
    requires number { number ≡ lane_number N.script (S.name state) }
    requires keeper { IsNewKeeper N.table number keeper }
    requires opens { content N.script (lanes_at N.script []) (S.name state) ≡ S.content state }
    requires time { S.time state ≡ 0 }
    requires fits { S.fits N.script state }
{
    let log = Record::<N>::new(alloc, number, script.cpus, keeper)?;
    Ok(Lane { state, log })
}

fn object_lane<N: Plan + Shared>(
    alloc: Global,
    script: &Script,
    d: DpcNo,
    number: u32,
    keeper: Keeper,
) -> Result<Lane<N, Object>, AllocError>
    requires script { script.now ≡ N.script }
    requires object { IsTrue (has_dpc N.script d) }
    requires number { number ≡ lane_number N.script (LaneName.Object d) }
    requires keeper { IsNewKeeper N.table number keeper }
{
    opening::<N, Object>(alloc, script, Object::new(script, d), number, keeper)
}

fn queue_lane<N: Plan + Shared>(
    alloc: Global,
    script: &Script,
    p: CpuNo,
    number: u32,
    keeper: Keeper,
) -> Result<Lane<N, Queue>, AllocError>
    requires script { script.now ≡ N.script }
    requires fits { IsTrue (fits N.script) }
    requires cpu { IsTrue (has_cpu N.script p) }
    requires number { number ≡ lane_number N.script (LaneName.Queue p) }
    requires keeper { IsNewKeeper N.table number keeper }
{
    let queue = Queue::new(alloc, script, p)?;
    opening::<N, Queue>(alloc, script, queue, number, keeper)
}

fn group_lane<'s, N: Plan + Shared>(
    alloc: Global,
    script: &'s Script,
    p: CpuNo,
    number: u32,
    keeper: Keeper,
) -> Result<Lane<N, Group<'s>>, AllocError>
    requires script { script.now ≡ N.script }
    requires fits { IsTrue (fits N.script) }
    requires cpu { IsTrue (has_cpu N.script p) }
    requires number { number ≡ lane_number N.script (LaneName.Threads p) }
    requires keeper { IsNewKeeper N.table number keeper }
{
    let group = Group::new(alloc, script, p)?;
    opening::<N, Group<'s>>(alloc, script, group, number, keeper)
}

fn timer_lane<N: Plan + Shared>(
    alloc: Global,
    script: &Script,
    number: u32,
    keeper: Keeper,
) -> Result<Lane<N, Clock>, AllocError>
    requires script { script.now ≡ N.script }
    requires fits { IsTrue (fits N.script) }
    requires number { number ≡ lane_number N.script LaneName.Timers }
    requires keeper { IsNewKeeper N.table number keeper }
{
    let clock = Clock::new(alloc, script)?;
    opening::<N, Clock>(alloc, script, clock, number, keeper)
}

fn spin_lane<N: Plan + Shared>(
    alloc: Global,
    script: &Script,
    k: LockNo,
    number: u32,
    keeper: Keeper,
) -> Result<Lane<N, Spin>, AllocError>
    requires script { script.now ≡ N.script }
    requires lock { IsTrue (has_lock N.script k) }
    requires number { number ≡ lane_number N.script (LaneName.Lock k) }
    requires keeper { IsNewKeeper N.table number keeper }
{
    let spin = Spin::new(alloc, script, k)?;
    opening::<N, Spin>(alloc, script, spin, number, keeper)
}

/// The lanes of the objects, with the first ones of the keepers.
pub(crate) fn objects<N: Plan + Shared>(
    alloc: Global,
    script: &Script,
    keepers: &mut NewKeepers<N>,
) -> Result<Vec<Mutex<Lane<N, Object>>>, AllocError>
    requires script { script.now ≡ N.script }
    requires fits { IsTrue (fits N.script) }
    requires next { keepers.old.next ≡ 0 }
    requires enough { keepers.old.count ≡ lane_count N.script }
    ensures lanes { IfOk result (λ v. vec_len v ≡ length N.script.dpcs) }
    ensures next { IfOk result (λ v. keepers.new.next ≡ length N.script.dpcs) }
    ensures count { IfOk result (λ v. keepers.new.next + keepers.new.count ≡ lane_count N.script) }
{
    let count = script.dpcs.len() as u16;
    let mut lanes = Vec::with_capacity(alloc, count as usize)?;
    for i in 0..count {
        let (number, keeper) = keepers.take();
        let lane = object_lane::<N>(alloc, script, DpcNo(i), number, keeper)?;
        lanes.push(Mutex::new(lane))?;
    }
    Ok(lanes)
}

/// The lanes of the queues, with the next ones of the keepers.
pub(crate) fn queues<N: Plan + Shared>(
    alloc: Global,
    script: &Script,
    keepers: &mut NewKeepers<N>,
) -> Result<Vec<Mutex<Lane<N, Queue>>>, AllocError>
    requires script { script.now ≡ N.script }
    requires fits { IsTrue (fits N.script) }
    requires next { keepers.old.next ≡ length N.script.dpcs }
    requires enough { keepers.old.next + keepers.old.count ≡ lane_count N.script }
    ensures lanes { IfOk result (λ v. vec_len v ≡ N.script.cpus) }
    ensures next { IfOk result (λ v. keepers.new.next ≡ length N.script.dpcs + N.script.cpus) }
    ensures count { IfOk result (λ v. keepers.new.next + keepers.new.count ≡ lane_count N.script) }
{
    let mut lanes = Vec::with_capacity(alloc, script.cpus as usize)?;
    for i in 0..script.cpus {
        let (number, keeper) = keepers.take();
        let lane = queue_lane::<N>(alloc, script, CpuNo(i), number, keeper)?;
        lanes.push(Mutex::new(lane))?;
    }
    Ok(lanes)
}

/// The lanes of the processors' threads, with the next ones of the keepers.
pub(crate) fn groups<'s, N: Plan + Shared>(
    alloc: Global,
    script: &'s Script,
    keepers: &mut NewKeepers<N>,
) -> Result<Vec<Mutex<Lane<N, Group<'s>>>>, AllocError>
    requires script { script.now ≡ N.script }
    requires fits { IsTrue (fits N.script) }
    requires next { keepers.old.next ≡ length N.script.dpcs + N.script.cpus }
    requires enough { keepers.old.next + keepers.old.count ≡ lane_count N.script }
    ensures lanes { IfOk result (λ v. vec_len v ≡ N.script.cpus) }
    ensures next { IfOk result
        (λ v. keepers.new.next ≡ length N.script.dpcs + (N.script.cpus + N.script.cpus)) }
    ensures count { IfOk result (λ v. keepers.new.next + keepers.new.count ≡ lane_count N.script) }
{
    let mut lanes = Vec::with_capacity(alloc, script.cpus as usize)?;
    for i in 0..script.cpus {
        let (number, keeper) = keepers.take();
        let lane = group_lane::<N>(alloc, script, CpuNo(i), number, keeper)?;
        lanes.push(Mutex::new(lane))?;
    }
    Ok(lanes)
}

/// The lane of the timers, with the next one of the keepers.
pub(crate) fn timers<N: Plan + Shared>(
    alloc: Global,
    script: &Script,
    keepers: &mut NewKeepers<N>,
) -> Result<Mutex<Lane<N, Clock>>, AllocError>
    requires script { script.now ≡ N.script }
    requires fits { IsTrue (fits N.script) }
    requires next { keepers.old.next ≡ length N.script.dpcs + (N.script.cpus + N.script.cpus) }
    requires enough { keepers.old.next + keepers.old.count ≡ lane_count N.script }
    ensures next { keepers.new.next ≡ length N.script.dpcs + (N.script.cpus + (N.script.cpus + 1)) }
    ensures count { keepers.new.next + keepers.new.count ≡ lane_count N.script }
{
    let (number, keeper) = keepers.take();
    let lane = timer_lane::<N>(alloc, script, number, keeper)?;
    Ok(Mutex::new(lane))
}

/// The lanes of the spin locks, with the last ones of the keepers.
pub(crate) fn spin_locks<N: Plan + Shared>(
    alloc: Global,
    script: &Script,
    keepers: &mut NewKeepers<N>,
) -> Result<Vec<Mutex<Lane<N, Spin>>>, AllocError>
    requires script { script.now ≡ N.script }
    requires fits { IsTrue (fits N.script) }
    requires next { keepers.old.next
        ≡ length N.script.dpcs + (N.script.cpus + (N.script.cpus + 1)) }
    requires enough { keepers.old.next + keepers.old.count ≡ lane_count N.script }
    ensures lanes { IfOk result (λ v. vec_len v ≡ N.script.locks) }
{
    let mut lanes = Vec::with_capacity(alloc, usize::from(script.locks))?;
    for i in 0..script.locks {
        let (number, keeper) = keepers.take();
        let lane = spin_lane::<N>(alloc, script, LockNo(i), number, keeper)?;
        lanes.push(Mutex::new(lane))?;
    }
    Ok(lanes)
}
