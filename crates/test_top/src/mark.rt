//! Worked examples: each call with its answer, two threads, and the most processors.
ghost use Rattle.std.specs.Prelude.{◌≡◌, ◌<◌, ◌≤◌, ◌+◌, ◌*◌, ℕ, [], length, Contains};
ghost use Rattle.nt_mark.specs.declared.view.Entry.{Entry};
ghost use Rattle.nt_mark.specs.Views.{reach};
ghost use Rattle.nt_mark.specs.Rule.{IsAbove};
ghost use Rattle.nt_mark.specs.Names.{keeper_view, table_of, cpus_of, lanes_of, limit_of};
ghost use Rattle.nt_mark.specs.Names.{keeper_table, keeper_lane, keeper_notes, pass_table};
ghost use Rattle.nt_mark.specs.Names.{pass_view};
ghost use Rattle.nt_mark.specs.Closing.{AreNewKeepers, IsNewKeeper};

use nt_event::{CpuNo, Event, Level, What};
use nt_mark::{Keeper, Made, Marks, Pass, Shared, Shows};
use std::marker::{Brand, Model, PhantomData};
use std::sync::{Mutex, Wait};
use std::test::Fail;
use std::thread;
use std::thread::Threads;

// The lane state that these tests show: none.
struct Nothing;

impl Shows for Nothing {
    ghost use Rattle.std.specs.Prelude.{[]};

    ghost states = { λ s. [] };
}

fn rest() -> Event {
    Event {
        cpu: CpuNo(0),
        thread: None,
        level: Level::PASSIVE,
        what: What::Rest,
    }
}

// The keeper of the only lane.
fn only(marks: &Marks, mut keepers: Vec<Keeper>) -> Keeper
    requires one { length keepers.items ≡ 1 }
    requires new { AreNewKeepers (table_of marks.now) keepers.items }
    ensures { IsNewKeeper (table_of marks.now) 0 result }
{
    let Some(keeper) = keepers.pop() else {
        unreachable!()
    };
    keeper
}

// Tells the keeper of the pass's event of this number and notes it; the place on the keeper's list.
fn noted(marks: &Marks, keeper: &mut Keeper, pass: &mut Pass, n: u64) -> u64
    requires table { (keeper_table keeper.old ≡ table_of marks.now) ×
        (pass_table pass.old ≡ table_of marks.now) }
    requires drew { (e : Entry) × Contains (pass_view pass.old).entries e × (e.number ≡ n) ×
        Contains e.lanes (keeper_lane keeper.old) }
    requires above { IsAbove n (keeper_notes keeper.old) }
    ensures table { (keeper_table keeper.new ≡ table_of marks.now) ×
        (pass_table pass.new ≡ table_of marks.now) ×
        (keeper_lane keeper.new ≡ keeper_lane keeper.old) }
    ensures last { (m : ℕ) → n < m → IsAbove m (keeper_notes keeper.new) }
    ensures words { (w : ℕ) → reach w (pass_view pass.old) ≤ reach w (keeper_view keeper.new) }
    ensures parts { (pass_view pass.new).parts ≡ (pass_view pass.old).parts }
    ensures entries { (pass_view pass.new).entries ≡ (pass_view pass.old).entries }
{
    marks.share(keeper, pass);
    marks.note(keeper, n, &Nothing)
}

#[test]
fn marks(rt: HostRuntime) -> Result<(), Fail> {
    let Made {
        marks,
        mut pass,
        keepers,
    } = Marks::new(rt.alloc(), 2, 1, 2, 10)?;
    let mut keeper = only(&marks, keepers);
    assert_eq!(rt; keeper.lane(), 0);

    let first = marks.draw(&mut pass, &rest(), &[0]);
    assert_eq!(rt; first, 0);
    let mut other = marks.split(&mut pass);
    assert_eq!(rt; marks.look(&mut other, CpuNo(1), 2), 0);
    marks.mark(&mut pass, CpuNo(1), 2, first);
    assert_eq!(rt; marks.look(&mut pass, CpuNo(1), 2), 1);
    assert_eq!(rt; marks.look(&mut other, CpuNo(1), 2), 1);

    assert_eq!(rt; noted(&marks, &mut keeper, &mut pass, first), 0);
    let second = marks.draw(&mut other, &rest(), &[0]);
    assert_eq!(rt; second, 1);
    assert_eq!(rt; noted(&marks, &mut keeper, &mut other, second), 1);

    marks.meet(&mut pass, other);
    let keepers = vec![in rt.alloc(); keeper]?;
    let drawn = marks.close(pass, Vec::new(rt.alloc()), keepers);
    assert_eq!(rt; drawn.count, 2);
    Ok(())
}

// Draws this many times, asks the other processor by each number, and looks for requests to its
// own.
fn work(marks: &Marks, mut pass: Pass, own: CpuNo, other: CpuNo, rounds: u64) -> Pass
    requires table { pass_table pass ≡ table_of marks.now }
    requires cpus { (own.0 < cpus_of marks.now) × (other.0 < cpus_of marks.now) }
    requires room { length (pass_view pass).entries + rounds
        ≤ limit_of marks.now * (pass_view pass).parts }
    ensures table { pass_table result ≡ table_of marks.now }
    ensures parts { (pass_view result).parts ≡ (pass_view pass).parts }
{
    for _ in 0..rounds {
        let n = marks.draw(&mut pass, &rest(), &[]);
        marks.mark(&mut pass, other, 3, n);
        marks.look(&mut pass, own, 3);
    }
    pass
}

#[test]
fn two_threads_draw_each_number_once(rt: HostRuntime) -> Result<(), Fail> {
    let Made {
        marks,
        mut pass,
        keepers,
    } = Marks::new(rt.alloc(), 2, 0, 2, 500)?;
    let other = marks.split(&mut pass);
    let (mut pass, other) = thread::join(
        &rt,
        || work(&marks, pass, CpuNo(0), CpuNo(1), 500),
        || work(&marks, other, CpuNo(1), CpuNo(0), 500),
    );
    // Each was asked by 500 numbers below 1,000, and no other class was.
    let of_first = marks.look(&mut pass, CpuNo(0), 3);
    let of_second = marks.look(&mut pass, CpuNo(1), 3);
    assert!(rt; 500 <= of_first && of_first <= 1000);
    assert!(rt; 500 <= of_second && of_second <= 1000);
    assert_eq!(rt; marks.look(&mut pass, CpuNo(1), 4), 0);
    let mut others = Vec::with_capacity(rt.alloc(), 1)?;
    others.push(other)?;
    assert_eq!(rt; marks.close(pass, others, keepers).count, 1000);
    Ok(())
}

// A lane that shows no state: what lies behind its lock is known by its type alone, so the type
// keeps that the keeper is of N's table, and that it knows of the step word more than the last
// number on its list.
struct Lane<N: Shared> {
    keeper: Keeper,
    of: PhantomData<N>,
}

impl<N: Shared> Model for Lane<N> {
    ghost use Rattle.std.specs.Prelude.{◌≡◌, ℕ};
    ghost use Rattle.nt_mark.specs.Views.{step_word, reach};
    ghost use Rattle.nt_mark.specs.Rule.{IsAbove};
    ghost use Rattle.nt_mark.specs.Names.{keeper_table, keeper_lane, keeper_view, keeper_notes};

    ghost Value = { ℕ };

    ghost view = { λ s. keeper_lane s.keeper };

    ghost invariant = { λ s.
        (keeper_table s.keeper ≡ N.table) × (keeper_lane s.keeper ≡ 0) ×
        IsAbove (reach step_word (keeper_view s.keeper)) (keeper_notes s.keeper) };
}

impl<N: Shared> Lane<N> {
    // One event that touches the lane.
    fn act(&mut self, marks: &Marks, pass: &mut Pass)
        requires table { (table_of marks.now ≡ N.table) × (pass_table pass.old ≡ N.table) }
        requires lane { 0 < lanes_of marks.now }
        requires room { length (pass_view pass.old).entries
            < limit_of marks.now * (pass_view pass.old).parts }
        ensures table { pass_table pass.new ≡ N.table }
        ensures parts { (pass_view pass.new).parts ≡ (pass_view pass.old).parts }
        ensures drew { length (pass_view pass.new).entries
            ≡ length (pass_view pass.old).entries + 1 }
    {
        marks.share(&mut self.keeper, pass);
        let n = marks.draw(pass, &rest(), &[0]);
        noted(marks, &mut self.keeper, pass, n);
    }
}

// Makes this many events that touch the lane.
fn act_often<N: Shared, R: Wait>(
    rt: &R,
    lane: &Mutex<Lane<N>>,
    marks: &Marks,
    mut pass: Pass,
    rounds: u64,
) -> Pass
    requires table { (table_of marks.now ≡ N.table) × (pass_table pass ≡ N.table) }
    requires lanes { lanes_of marks.now ≡ 1 }
    requires room { length (pass_view pass).entries + rounds
        ≤ limit_of marks.now * (pass_view pass).parts }
    ensures table { pass_table result ≡ N.table }
    ensures parts { (pass_view result).parts ≡ (pass_view pass).parts }
{
    for _ in 0..rounds {
        let mut guard = lane.lock(rt);
        guard.act(marks, &mut pass);
    }
    pass
}

// Two threads make events that touch the lane, each with a pass of its own; the passes and the
// keeper after them.
fn act_on_threads<N: Shared + Send + Sync, R: Threads + Wait + Sync>(
    rt: &R,
    marks: &Marks,
    keeper: Keeper,
    pass: Pass,
    other: Pass,
) -> (Pass, Pass, Keeper)
    requires names { N.table ≡ table_of marks.now }
    requires keeper { IsNewKeeper (table_of marks.now) 0 keeper }
    requires table { (pass_table pass ≡ table_of marks.now) ×
        (pass_table other ≡ table_of marks.now) }
    requires lanes { lanes_of marks.now ≡ 1 }
    requires room { (length (pass_view pass).entries + 100
        ≤ limit_of marks.now * (pass_view pass).parts) ×
        (length (pass_view other).entries + 100 ≤ limit_of marks.now * (pass_view other).parts) }
    ensures table { (pass_table result.0 ≡ table_of marks.now) ×
        (pass_table result.1 ≡ table_of marks.now) × (keeper_table result.2 ≡ table_of marks.now) }
    ensures parts { ((pass_view result.0).parts ≡ (pass_view pass).parts) ×
        ((pass_view result.1).parts ≡ (pass_view other).parts) }
{
    let lane = Mutex::new(Lane::<N> {
        keeper,
        of: PhantomData,
    });
    let (pass, other) = thread::join(
        rt,
        || act_often(rt, &lane, marks, pass, 100),
        || act_often(rt, &lane, marks, other, 100),
    );
    let Lane { keeper, of: _ } = lane.into_inner();
    (pass, other, keeper)
}

#[test]
fn a_keeper_behind_a_lock(rt: HostRuntime) -> Result<(), Fail> {
    let Made {
        marks,
        mut pass,
        keepers,
    } = Marks::new(rt.alloc(), 1, 1, 2, 100)?;
    let keeper = only(&marks, keepers);
    let other = marks.split(&mut pass);
    let (pass, other, keeper) = act_on_threads::<Brand, HostRuntime>(
        &rt, &marks, keeper, pass, other,
    );
    let others = vec![in rt.alloc(); other]?;
    let keepers = vec![in rt.alloc(); keeper]?;
    assert_eq!(rt; marks.close(pass, others, keepers).count, 200);
    Ok(())
}

#[test]
fn sixty_four_processors(rt: HostRuntime) -> Result<(), Fail> {
    let Made {
        marks,
        mut pass,
        keepers,
    } = Marks::new(rt.alloc(), 64, 0, 1, 2)?;
    let first = marks.draw(&mut pass, &rest(), &[]);
    let second = marks.draw(&mut pass, &rest(), &[]);
    marks.mark(&mut pass, CpuNo(63), 15, second);
    marks.mark(&mut pass, CpuNo(63), 15, first);
    assert_eq!(rt; marks.look(&mut pass, CpuNo(63), 15), 2);
    assert_eq!(rt; marks.look(&mut pass, CpuNo(63), 14), 0);
    assert_eq!(rt; marks.look(&mut pass, CpuNo(0), 0), 0);
    assert_eq!(rt; marks.close(pass, Vec::new(rt.alloc()), keepers).count, 2);
    Ok(())
}
