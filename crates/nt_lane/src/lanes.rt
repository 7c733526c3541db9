//! All lanes, each with a lock of its own.
ghost use Rattle.std.specs.Prelude.{◌≡◌, ◌<◌, ◌≤◌, ◌+◌, IfOk, IsTrue, length, vec_capacity};
ghost use Rattle.std.specs.Prelude.{vec_len};
ghost use Rattle.nt_event.specs.Lanes as spec;
ghost use Rattle.nt_event.specs.Script.{fits};
ghost use Rattle.nt_lane.specs.Pieces.{AreClosed, ArePiecesOf};
ghost use Rattle.nt_mark.specs.Closing.{AreNewKeepers};

use crate::making::{self, NewKeepers};
use nt_event::{Plan, Script};
use nt_lane_record::{Clock, Group, Holds, Lane, Object, Piece, Queue, Spin};
use nt_mark::{Keeper, Shared};
use nt_outside::Gate;
use std::alloc::{AllocError, Global};
use std::marker::PhantomData;
use std::sync::{Mutex, Wait};

/// What [`Lanes::close`] gives: the list of each lane, and the keepers in the same order.
#[derive(Drop)]
pub struct Pieces {
    pub lists: Vec<Piece>,
    pub keepers: Vec<Keeper>,
}

/// The lanes of a script: one lock for each DPC object, each processor's DPC queue, each
/// processor's threads, the timers, and each spin lock. Locks are taken in this order, by number
/// within a kind.
#[derive(Drop)]
pub struct Lanes<'s, N: Plan + Shared> {
    pub(crate) script: &'s Script,
    pub(crate) objects: Vec<Mutex<Lane<N, Object>>>,
    pub(crate) queues: Vec<Mutex<Lane<N, Queue>>>,
    pub(crate) groups: Vec<Mutex<Lane<N, Group<'s>>>>,
    pub(crate) timers: Mutex<Lane<N, Clock>>,
    pub(crate) spin_locks: Vec<Mutex<Lane<N, Spin>>>,
    /// A keeper is no thing to share, so it stands behind a lock too, which nobody takes.
    room: Mutex<Room<N>>,
    ghost script_is: { script.now ≡ N.script },
    ghost script_fits: { IsTrue (fits N.script) },
    ghost all_objects: { vec_len objects ≡ length N.script.dpcs },
    ghost all_queues: { vec_len queues ≡ N.script.cpus },
    ghost all_groups: { vec_len groups ≡ N.script.cpus },
    ghost all_spin_locks: { vec_len spin_locks ≡ N.script.locks },
}

/// The empty lists that [`Lanes::close`] fills, with room for each lane.
#[derive(Drop)]
pub(crate) struct Room<N: Plan> {
    lists: Vec<Piece>,
    keepers: Vec<Keeper>,
    of: PhantomData<N>,
    ghost empty: { (vec_len lists ≡ 0) × (vec_len keepers ≡ 0) },
    ghost room: { (spec.lane_count N.script ≤ vec_capacity lists) ×
        (spec.lane_count N.script ≤ vec_capacity keepers) },
}

impl<'s, N: Plan + Shared> Lanes<'s, N> {
    /// The lanes of N's script, on which nothing happened, with the keepers of N's table, one for
    /// each lane, in order. Room for the lists is taken as they grow.
    pub fn new(
        alloc: Global,
        script: &'s Script,
        keepers: Vec<Keeper>,
        turns: u32,
    ) -> Result<Lanes<'s, N>, AllocError>
        requires script { (script.now ≡ N.script) × IsTrue (fits script.now) }
        requires turns { turns ≡ N.turns }
        requires keepers { AreNewKeepers N.table keepers.items ×
            (vec_len keepers ≡ spec.lane_count script.now) }
    {
        let _turns = turns;
        let lists = Vec::with_capacity(alloc, script.lane_count())?;
        let mut keepers = NewKeepers::<N>::new(keepers);
        let objects = making::objects::<N>(alloc, script, &mut keepers)?;
        let queues = making::queues::<N>(alloc, script, &mut keepers)?;
        let groups = making::groups::<N>(alloc, script, &mut keepers)?;
        let timers = making::timers::<N>(alloc, script, &mut keepers)?;
        let spin_locks = making::spin_locks::<N>(alloc, script, &mut keepers)?;
        let room = Room {
            lists,
            keepers: Vec::with_capacity(alloc, script.lane_count())?,
            of: PhantomData,
        };
        Ok(Lanes {
            script,
            objects,
            queues,
            groups,
            timers,
            spin_locks,
            room: Mutex::new(room),
        })
    }

    /// Holds the lock of one lane alone while a gate is passed. Nothing changes. It may wait.
    pub fn hold<G: Gate, R: Wait>(&self, rt: &R, lane: u32, gate: &G)
        requires { lane < spec.lane_count N.script }
    {
        let place = lane as usize;
        let queues = self.objects.len();
        let groups = queues + self.queues.len();
        let timers = groups + self.groups.len();
        let spin_locks = timers + 1;
        if place < queues {
            let _held = self.objects[place].lock(rt);
            gate.pass(0, 0);
        } else if place < groups {
            let _held = self.queues[place - queues].lock(rt);
            gate.pass(0, 0);
        } else if place < timers {
            let _held = self.groups[place - groups].lock(rt);
            gate.pass(0, 0);
        } else if place < spin_locks {
            let _held = self.timers.lock(rt);
            gate.pass(0, 0);
        } else {
            let _held = self.spin_locks[place - spin_locks].lock(rt);
            gate.pass(0, 0);
        }
    }

    /// The lists of all lanes and their keepers, in one order. Takes no memory.
    pub fn close(self) -> Pieces
        ensures { AreClosed N.table (spec.lane_count N.script) result }
    {
        let Lanes {
            script: _,
            objects,
            queues,
            groups,
            timers,
            spin_locks,
            room,
        } = self;
        let Room {
            lists,
            keepers,
            of: _,
        } = room.into_inner();
        let mut pieces = Pieces { lists, keepers };
        pieces.add_all::<N, Object>(objects);
        pieces.add_all::<N, Queue>(queues);
        pieces.add_all::<N, Group<'s>>(groups);
        pieces.add_lane::<N, Clock>(timers);
        pieces.add_all::<N, Spin>(spin_locks);
        pieces
    }
}

impl Pieces {
    /// Adds the list of a lane.
    fn add_lane<N: Plan + Shared, S: Holds + Drop>(&mut self, lane: Mutex<Lane<N, S>>)
        requires room { (vec_len self.old.lists < vec_capacity self.old.lists) ×
            (vec_len self.old.keepers < vec_capacity self.old.keepers) }
        requires pieces { ArePiecesOf N.table self.old.lists.items self.old.keepers.items }
        ensures count { (vec_len self.new.lists ≡ vec_len self.old.lists + 1) ×
            (vec_len self.new.keepers ≡ vec_len self.old.keepers + 1) }
        ensures room { (vec_capacity self.new.lists ≡ vec_capacity self.old.lists) ×
            (vec_capacity self.new.keepers ≡ vec_capacity self.old.keepers) }
        ensures pieces { ArePiecesOf N.table self.new.lists.items self.new.keepers.items }
    {
        let Lane { state: _, log } = lane.into_inner();
        let (piece, keeper) = log.close();
        self.lists.push_reserved(piece);
        self.keepers.push_reserved(keeper);
    }

    /// Adds the lists of lanes, in order.
    fn add_all<N: Plan + Shared, S: Holds + Drop>(&mut self, mut lanes: Vec<Mutex<Lane<N, S>>>)
        requires room { (vec_len self.old.lists + vec_len lanes ≤ vec_capacity self.old.lists) ×
            (vec_len self.old.keepers + vec_len lanes ≤ vec_capacity self.old.keepers) }
        requires pieces { ArePiecesOf N.table self.old.lists.items self.old.keepers.items }
        ensures count { (vec_len self.new.lists ≡ vec_len self.old.lists + vec_len lanes) ×
            (vec_len self.new.keepers ≡ vec_len self.old.keepers + vec_len lanes) }
        ensures room { (vec_capacity self.new.lists ≡ vec_capacity self.old.lists) ×
            (vec_capacity self.new.keepers ≡ vec_capacity self.old.keepers) }
        ensures pieces { ArePiecesOf N.table self.new.lists.items self.new.keepers.items }
    {
        for _ in 0..lanes.len() {
            self.add_lane::<N, S>(lanes.remove(0));
        }
    }
}
