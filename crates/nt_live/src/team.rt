//! Workers that have met: their processors, one pass for all, and the lists of their events.
ghost use Rattle.std.specs.Prelude.{◌≡◌, ◌≤◌, ◌<◌, ◌∷◌, ◌++◌, ℕ, List, [], IfOk, OnOk, get_or};
ghost use Rattle.std.specs.Prelude.{length, true};
ghost use Rattle.nt_cpu.specs.States.{CpuState};
ghost use Rattle.nt_event.specs.Classes.{is_used_class};
ghost use Rattle.nt_event.specs.Lists.{value_at};
ghost use Rattle.nt_event.specs.Numbers as named;
ghost use Rattle.nt_live.specs.OwnLists.{all_pairs};
ghost use Rattle.nt_live.specs.Teams.{AreOneEach, HasNoMore, HaveNoMore, IsTeam, HasLooked};
ghost use Rattle.nt_live.specs.Workers.{WorkerState};
ghost use Rattle.nt_mark.specs.Names.{cpus_of, pass_table, pass_view, table_of};
ghost use Rattle.nt_mark.specs.Views.{reach, request_word};

use crate::list::MadeList;
use crate::worker::Worker;
use nt_cpu::Cpu;
use nt_event::class::is_used;
use nt_event::{CpuNo, Plan};
use nt_mark::{Marks, Pass, Shared};
use std::alloc::{AllocError, Global};

/// The processors of workers, in order, with one pass that has and knows all that theirs had and
/// knew, and the lists of their events.
#[derive(Drop)]
pub(crate) struct Team<'s> {
    pub(crate) cpus: Vec<Cpu<'s>>,
    pub(crate) pass: Pass,
    pub(crate) lists: Vec<MadeList>,
}

impl<'s> Team<'s> {
    /// The team of the first processor's worker.
    fn of<N: Plan + Shared>(alloc: Global, worker: Worker<'s, N>) -> Result<Team<'s>, AllocError>
        requires first { worker.cpu.cpu ≡ named.cpu 0 }
        ensures table { IfOk result (λ t. pass_table t.pass ≡ N.table) }
        ensures team { IfOk result (λ t.
            IsTeam N.script N.turns (worker.entry ∷ []) t.cpus.items
            (pass_view t.pass) (all_pairs t.lists.items)) }
    {
        let (cpu, pass, list) = worker.into_parts();
        let mut cpus = Vec::new(alloc);
        cpus.push(cpu)?;
        let mut lists = Vec::new(alloc);
        lists.push(list)?;
        Ok(Team { cpus, pass, lists })
    }

    /// The next processor's worker meets them.
    fn join<N: Plan + Shared>(
        &mut self,
        marks: &Marks,
        worker: Worker<'s, N>,
    ) -> Result<(), AllocError>
        requires table { (table_of marks.now ≡ N.table) × (pass_table self.old.pass ≡ N.table) }
        ensures table { pass_table self.new.pass ≡ N.table }
        ensures joined { OnOk result ((met : List WorkerState) →
            IsTeam N.script N.turns met self.old.cpus.items (pass_view self.old.pass)
            (all_pairs self.old.lists.items) →
            worker.entry.cpu.cpu ≡ named.cpu (length met) →
            IsTeam N.script N.turns (met ++ worker.entry ∷ []) self.new.cpus.items
            (pass_view self.new.pass) (all_pairs self.new.lists.items)) }
    {
        let (cpu, pass, list) = worker.into_parts();
        self.cpus.push(cpu)?;
        self.lists.push(list)?;
        marks.meet(&mut self.pass, pass);
        Ok(())
    }

    /// The team of all workers of a board.
    pub(crate) fn of_all<N: Plan + Shared>(
        alloc: Global,
        marks: &Marks,
        mut workers: Vec<Worker<'s, N>>,
    ) -> Result<Team<'s>, AllocError>
        requires table { table_of marks.now ≡ N.table }
        requires some { 1 ≤ N.script.cpus }
        requires all { AreOneEach N.script workers.items }
        ensures table { IfOk result (λ t. pass_table t.pass ≡ N.table) }
        ensures team { IfOk result (λ t.
            IsTeam N.script N.turns workers.entry.items t.cpus.items
            (pass_view t.pass) (all_pairs t.lists.items)) }
    {
        let mut team = Team::of::<N>(alloc, workers.remove(0))?;
        for _ in 0..workers.len() {
            team.join::<N>(marks, workers.remove(0))?;
        }
        Ok(team)
    }

    /// Whether no processor has more to do: each made `turns` events, or rests or spins still and
    /// has seen all that was asked of it.
    pub(crate) fn has_no_more(&mut self, marks: &Marks, turns: u32) -> bool
        requires table { pass_table self.old.pass ≡ table_of marks.now }
        requires cpus { length self.old.cpus.items ≤ cpus_of marks.now }
        requires order { (k : ℕ) (c : CpuState) → k < length self.old.cpus.items →
            (get_or self.old.cpus.items k c).cpu ≡ named.cpu k }
        ensures table { pass_table self.new.pass ≡ pass_table self.old.pass }
        ensures same { (self.new.cpus.items ≡ self.old.cpus.items) ×
            (self.new.lists.items ≡ self.old.lists.items) }
        ensures looked { HasLooked (pass_view self.old.pass) (pass_view self.new.pass) }
        ensures more { result ≡ true →
            HaveNoMore turns (pass_view self.old.pass) self.old.cpus.items }
    {
        for p in 0..self.cpus.len() {
            if !has_no_more(marks, &mut self.pass, CpuNo(p as u8), &self.cpus[p], turns) {
                return false;
            }
        }
        true
    }
}

/// The greatest request of a class for a processor that a look finds now; 0 for a class that is not
/// used.
fn look(marks: &Marks, pass: &mut Pass, cpu: CpuNo, class: u8) -> u64
    requires table { pass_table pass.old ≡ table_of marks.now }
    requires word { (cpu.0 < cpus_of marks.now) × (class < 16) }
    ensures table { pass_table pass.new ≡ pass_table pass.old }
    ensures looked { HasLooked (pass_view pass.old) (pass_view pass.new) }
    ensures least { is_used_class class ≡ true →
        reach (request_word cpu class) (pass_view pass.old) ≤ result }
{
    if is_used(class) {
        marks.look(pass, cpu, class)
    } else {
        0
    }
}

/// The greatest requests for a processor that looks find now, one for each class; 0 for a class
/// that is not used.
fn look_all(marks: &Marks, pass: &mut Pass, cpu: CpuNo) -> [u64; 16]
    requires table { pass_table pass.old ≡ table_of marks.now }
    requires cpu { cpu.0 < cpus_of marks.now }
    ensures table { pass_table pass.new ≡ pass_table pass.old }
    ensures looked { HasLooked (pass_view pass.old) (pass_view pass.new) }
    ensures least { (k : ℕ) → k < 16 → is_used_class k ≡ true →
        reach (request_word cpu k) (pass_view pass.old) ≤ value_at result k }
{
    let mut answers = [0; 16];
    for class in 0..16u8 {
        answers[class as usize] = look(marks, pass, cpu, class);
    }
    answers
}

/// Whether a processor has no more to do: it made `turns` events, or rests or spins still and has
/// seen all that was asked of it.
fn has_no_more(marks: &Marks, pass: &mut Pass, number: CpuNo, cpu: &Cpu, turns: u32) -> bool
    requires table { pass_table pass.old ≡ table_of marks.now }
    requires cpu { (number.0 < cpus_of marks.now) × (cpu.now.cpu ≡ number) }
    ensures table { pass_table pass.new ≡ pass_table pass.old }
    ensures looked { HasLooked (pass_view pass.old) (pass_view pass.new) }
    ensures more { result ≡ true → HasNoMore turns (pass_view pass.old) cpu.now }
{
    if turns <= cpu.made() {
        return true;
    }
    let answers = look_all(marks, pass, number);
    cpu.is_still() && !cpu.is_behind(&answers)
}
