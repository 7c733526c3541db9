//! The states of a script's threads.
ghost use Rattle.std.specs.List.{All};
ghost use Rattle.std.specs.Prelude.{◌≡◌, ◌↔◌, IfOk, IsTrue, false, replicate};
ghost use Rattle.nt_event.specs.Routines.{kind_of as kind_in, owner_of as owner_in};
ghost use Rattle.nt_event.specs.Script.{fits, has_apc, has_thread};
ghost use Rattle.nt_event.specs.Threads as spec;
ghost use Rattle.nt_event.specs.declared.threads.Doing.TheVariants.{Running as IsRunning};
ghost use Rattle.nt_states.specs.ThreadLanes.{facts_in, start};
ghost use Rattle.nt_thread_lanes.specs.Sound.{AreOurs};

use nt_event::{ApcNo, Script, ThreadNo};
use nt_thread::ThreadState;
use std::alloc::{AllocError, Global};
use std::marker::Model;

/// The states of all threads of a script.
#[derive(Drop)]
pub struct Threads<'s> {
    pub(crate) script: &'s Script,
    pub(crate) states: Vec<ThreadState>,
    /// For each APC object of the script, whether it is inserted.
    pub(crate) inserted: Vec<bool>,
}

impl<'s> Model for Threads<'s> {
    ghost use Rattle.nt_states.specs.ThreadLanes.{ThreadLanes};

    ghost Value = { ThreadLanes };

    ghost use Rattle.nt_thread_lanes.specs.Insides.{IsSoundInside, lanes_in};

    ghost view = { lanes_in };

    ghost invariant = { IsSoundInside };
}

impl<'s> Threads<'s> {
    /// The threads of a script that fits, before any event. Room is taken for all APC objects, and
    /// no later call but [`Threads::copy`] takes memory.
    pub fn new(alloc: Global, script: &'s Script) -> Result<Threads<'s>, AllocError>
        requires { IsTrue (fits script.now) }
        ensures { IfOk result (λ x. x ≡ start script.now) }
    {
        let states = start_states(alloc, script.threads.len(), script.apcs.len() as u32)?;
        let inserted = no_marks(alloc, script.apcs.len())?;
        Ok(Threads {
            script,
            states,
            inserted,
        })
    }

    /// A copy of them, with room for all APC objects.
    pub fn copy(&self, alloc: Global) -> Result<Threads<'s>, AllocError>
        ensures { IfOk result (λ x. x ≡ self.now) }
    {
        let mut states = Vec::with_capacity(alloc, self.states.len())?;
        for state in &self.states {
            states.push(state.copy(alloc)?)?;
        }
        Ok(Threads {
            script: self.script,
            states,
            inserted: self.inserted.to_vec(alloc)?,
        })
    }

    /// The states of all threads, in the order of their numbers.
    pub fn states(&self) -> &[ThreadState]
        ensures { result.now ≡ self.now.facts }
    {
        self.states.as_slice()
    }

    /// The state of a thread.
    pub(crate) fn state(&self, t: ThreadNo) -> &ThreadState
        requires { IsTrue (has_thread self.now.script t) }
        ensures { result.now ≡ facts_in self.now t }
    {
        &self.states[t.0 as usize]
    }

    /// The state of the thread of an APC object.
    pub(crate) fn owner(&self, a: ApcNo) -> &ThreadState
        requires { IsTrue (has_apc self.now.script a) }
        ensures { result.now ≡ facts_in self.now (owner_in self.now.script a) }
    {
        self.state(self.script.owner_of(a))
    }

    /// The thread's pending APCs are of objects of the script.
    pub(crate) fn ours(&self, t: ThreadNo)
        ensures { AreOurs self.now.script t (facts_in self.now t).apcs }
    {
        let _script = self.script;
        let _thread = t;
    }

    /// Whether the thread may be taken up.
    pub fn is_ready(&self, t: ThreadNo) -> bool
        requires { IsTrue (has_thread self.now.script t) }
        ensures { result ≡ spec.is_ready (facts_in self.now t) }
    {
        self.state(t).is_ready()
    }

    /// Whether the thread runs.
    pub fn is_running(&self, t: ThreadNo) -> bool
        requires { IsTrue (has_thread self.now.script t) }
        ensures { IsTrue result ↔ ((facts_in self.now t).doing ≡ IsRunning) }
    {
        self.state(t).is_running()
    }

    /// Whether the thread's base routine has ended.
    pub fn is_leaving(&self, t: ThreadNo) -> bool
        requires { IsTrue (has_thread self.now.script t) }
        ensures { result ≡ (facts_in self.now t).leaving }
    {
        self.state(t).is_leaving()
    }

    /// Each pending APC is of the kind of its object.
    pub fn kinds(&self)
        ensures { All
            (λ x. All (λ pick. pick.kind ≡ kind_in self.now.script pick.apc) x.apcs.pending)
            self.now.facts }
    {
        let _script = self.script;
    }
}

/// The states of so many threads that have not run, each with room for so many APC objects.
fn start_states(alloc: Global, threads: usize, apcs: u32) -> Result<Vec<ThreadState>, AllocError>
    ensures { IfOk result (λ v. v.items ≡ replicate threads spec.start_facts) }
{
    let mut states = Vec::with_capacity(alloc, threads)?;
    for _thread in 0..threads {
        states.push(ThreadState::new(alloc, apcs)?)?;
    }
    Ok(states)
}

/// The marks of so many APC objects, none of which is inserted.
fn no_marks(alloc: Global, apcs: usize) -> Result<Vec<bool>, AllocError>
    ensures { IfOk result (λ v. v.items ≡ replicate apcs false) }
{
    vec![in alloc; false; apcs]
}
