//! The words, and the calls on them.
ghost use Rattle.std.specs.Prelude.{◌≡◌, ℕ, ◌+◌, ◌-◌, ◌*◌, ◌<◌, ◌≤◌, ◌≢◌, [], ◌∷◌, ◌++◌, length};
ghost use Rattle.std.specs.Prelude.{max, All, Contains, IfOk, vec_capacity};
ghost use Rattle.std.specs.List.Sorted.{IsStrictlyIncreasing};
ghost use Rattle.nt_mark.specs.declared.view.Entry.{Entry};
ghost use Rattle.nt_mark.specs.declared.view.Look.{Look};
ghost use Rattle.nt_mark.specs.declared.view.Note.{Note};
ghost use Rattle.nt_mark.specs.declared.view.LaneList.{LaneList};
ghost use Rattle.nt_mark.specs.Views.{step_word, request_word, lane_word, reach, known_entries};
ghost use Rattle.nt_mark.specs.Views.{known_lists, drawn, marked, looked, noted, note_of, telling};
ghost use Rattle.nt_mark.specs.Views.{keeping, both, HasSame, first_kept, other_kept, first_notes};
ghost use Rattle.nt_mark.specs.Views.{entry_numbers, note_numbers};
ghost use Rattle.nt_event.specs.declared.limits.TheConstants.{EVENTS};
ghost use Rattle.nt_mark.specs.Rule.{IsAbove, IsBeginning, IsLongest, empty_lists};

use crate::seats::{Keeper, Law, Pass};
use crate::steps::{
    Asks, Compares, Drawing, Draws, Looks, Meets, Notes, Noting, OneLane, OnePart, Request, Tells,
};
use crate::traits::Shows;
use crate::view::{Sizes, View};
use atomic_table::{Seat, Table};
use nt_event::{CpuNo, Event};
use std::alloc::{AllocError, Global};
use std::marker::Brand;

/// The step word, the request words of each processor, and a count for each lane.
#[derive(Drop)]
pub struct Marks {
    table: Table<u8, View, Sizes, Law, Global>,
    cpus: u64,
    ghost wide: { table.shared.table_id.words
        ≡ 1 + 16 * table.shared.key.cpus + table.shared.key.lanes },
    ghost no_slots: { table.shared.table_id.slots ≡ 0 },
    ghost cpus_is: { cpus ≡ table.shared.key.cpus },
    ghost few_cpus: { cpus ≤ 64 },
    ghost few_numbers: { table.shared.key.limit * table.shared.key.parts ≤ EVENTS },
}

/// What [`Marks::new`] makes: the words, a pass that holds all parts, and the keeper of each lane,
/// in order.
#[derive(Drop)]
pub struct Made {
    pub marks: Marks,
    pub pass: Pass,
    pub keepers: Vec<Keeper>,
}

/// What [`Marks::close`] answers.
#[derive(Clone, Copy, PartialEq, Eq, Debug)]
pub struct Drawn {
    /// How many numbers were drawn: those below it.
    pub count: u64,
}

// The request word of a processor's class.
fn request_at(p: CpuNo, class: u8) -> usize
    ensures { result ≡ request_word p class }
{
    1 + 16 * usize::from(p.0) + usize::from(class)
}

impl Marks {
    ghost use Rattle.nt_mark.specs.Names.{table_of, cpus_of, lanes_of, parts_of, limit_of};
    ghost use Rattle.nt_mark.specs.Names.{pass_table, pass_view, keeper_table, keeper_lane};
    ghost use Rattle.nt_mark.specs.Names.{keeper_view, keeper_notes, keeper_lanes, keeper_views};
    ghost use Rattle.nt_mark.specs.Names.{pass_views};
    ghost use Rattle.nt_mark.specs.Closing.{AreNewKeepers, gathered, passes, seat_views};
    ghost use Rattle.nt_mark.specs.Closing.{IsEachOnce, IsOfEntry, IsOfKeeper, WasAsked};
    ghost use Rattle.nt_mark.specs.Rule as rule;
    ghost use Rattle.nt_mark.specs.declared.view.View.{View};

    /// The words of `cpus` processors and `lanes` lanes, all 0, for `parts` times `limit` numbers
    /// at most. The pass holds all parts, and keeper x keeps lane x, with an empty list. `cpus` is
    /// 1 to 64, and `parts` times `limit` at most 160,000.
    pub fn new(
        alloc: Global,
        cpus: u8,
        lanes: u32,
        parts: u32,
        limit: u32,
    ) -> Result<Made, AllocError>
        requires cpus { (1 ≤ cpus) × (cpus ≤ 64) }
        requires some { (1 ≤ parts) × (1 ≤ limit) }
        requires few { limit * parts ≤ EVENTS }
        ensures sizes { IfOk result (λ m.
            (cpus_of m.marks ≡ cpus) × (lanes_of m.marks ≡ lanes) × (parts_of m.marks ≡ parts) ×
            (limit_of m.marks ≡ limit)) }
        ensures pass { IfOk result (λ m.
            (pass_table m.pass ≡ table_of m.marks) ×
            (pass_view m.pass ≡ record {
              parts = parts;
              kept = [];
              entries = [];
              marks = [];
              looks = [];
              reached = [];
              known = [];
              prefixes = [];
            })) }
        ensures keepers { IfOk result (λ m.
            (length m.keepers.items ≡ lanes) × AreNewKeepers (table_of m.marks) m.keepers.items) }
    {
        let count = 1 + 16 * usize::from(cpus) + lanes as usize;
        let words = vec![in alloc; 0u64; count]?;
        let keepers = Vec::with_capacity(alloc, lanes as usize)?;
        let sizes = Sizes {
            cpus: u64::from(cpus),
            lanes: u64::from(lanes),
            parts: u64::from(parts),
            limit: u64::from(limit),
        };
        let (table, mut seat) = Table::<u8, View, Sizes, Law, Global>::of_words(
            alloc,
            words.as_slice(),
            &sizes,
        )?;
        let marks = Marks {
            table,
            cpus: u64::from(cpus),
        };
        let keepers = marks.all_keepers(&mut seat, keepers, lanes);
        Ok(Made {
            marks,
            pass: Pass { seat },
            keepers,
        })
    }

    // The keepers of all lanes, which the seat kept before.
    fn all_keepers(
        &self,
        seat: &mut Seat<u8, View>,
        mut keepers: Vec<Keeper>,
        lanes: u32,
    ) -> Vec<Keeper>
        requires seat { (seat.old.table_id ≡ table_of self.now) ×
            (seat.old.me ≡ (rule.opening_view self.now.table.shared.key, [])) }
        requires lanes { lanes ≡ lanes_of self.now }
        requires room { (keepers.items ≡ []) × (lanes ≤ vec_capacity keepers) }
        ensures seat { (seat.new.table_id ≡ seat.old.table_id) ×
            (seat.new.me ≡ (keeping seat.old.me.0 seat.old.me.0.parts [], [])) }
        ensures keepers { (length result.items ≡ lanes) ×
            AreNewKeepers (table_of self.now) result.items }
    {
        for lane in 0..lanes {
            let keeper = self.keeper(seat, lane);
            keepers.push_reserved(keeper);
        }
        keepers
    }

    // The keeper of the lane that the seat keeps first.
    fn keeper(&self, seat: &mut Seat<u8, View>, lane: u32) -> Keeper
        requires table { seat.old.table_id ≡ table_of self.now }
        requires inside { lane < lanes_of self.now }
        requires first { (n : ℕ) ×
            (seat.old.me.0.kept ≡ empty_lists (cpus_of self.now) lane (n + 1)) }
        requires nothing { (seat.old.me.0.entries ≡ []) × (seat.old.me.1 ≡ []) }
        ensures table { (seat.new.table_id ≡ seat.old.table_id) ×
            (keeper_table result ≡ seat.old.table_id) }
        ensures seat { seat.new.me
            ≡ (keeping seat.old.me.0 seat.old.me.0.parts (other_kept seat.old.me.0.kept), []) }
        ensures keeper { (keeper_lane result ≡ lane) ×
            (keeper_view result ≡ telling seat.old.me.0 0 (first_kept seat.old.me.0.kept)) }
    {
        let kept = self.table.shared.split_seat::<OneLane>(seat);
        let word = 1 + 16 * (self.cpus as usize) + lane as usize;
        Keeper {
            seat: kept,
            lane,
            word,
        }
    }

    fn draw_as<D: Drawing>(&self, pass: &mut Pass, event: &Event, lanes: &[u32]) -> u64
        requires picked { (D.event ≡ event.now) × (D.lanes ≡ lanes.now) ×
            (D.most ≡ limit_of self.now * parts_of self.now) }
        requires table { pass_table pass.old ≡ table_of self.now }
        requires room { length (pass_view pass.old).entries
            < limit_of self.now * (pass_view pass.old).parts }
        ensures table { pass_table pass.new ≡ pass_table pass.old }
        ensures tells { rule.Draws event.now lanes.now (limit_of self.now * parts_of self.now)
            pass.old.seat.me result pass.new.seat.me }
    {
        self.table
            .shared
            .fetch_add::<Draws<D>>(&mut pass.seat, 0, 1)
    }

    /// Draws the next number, for an event that touches these lanes: none, or lanes of these marks,
    /// rising. The pass has to have fewer entries than the limit times its parts.
    pub fn draw(&self, pass: &mut Pass, event: &Event, lanes: &[u32]) -> u64
        requires table { pass_table pass.old ≡ table_of self.now }
        requires lanes { IsStrictlyIncreasing lanes.now ×
            All (λ x. x < lanes_of self.now) lanes.now }
        requires room { length (pass_view pass.old).entries
            < limit_of self.now * (pass_view pass.old).parts }
        ensures table { pass_table pass.new ≡ pass_table pass.old }
        ensures drew { pass_view pass.new ≡ drawn (pass_view pass.old) result event.now lanes.now }
        ensures numbers { entry_numbers (pass_view pass.new).entries
            ≡ entry_numbers (pass_view pass.old).entries ++ result ∷ [] }
        ensures most { result < limit_of self.now * parts_of self.now }

        // At least what the pass knew of the step word, and not below any value that it looked.
        ensures least { reach step_word (pass_view pass.old) ≤ result }
        ensures looks { All (λ (l : Look). l.value ≤ result) (pass_view pass.old).looks }

        // What the pass knows of the words.
        ensures knows { reach step_word (pass_view pass.new) ≡ result + 1 }
        ensures others { (w : ℕ) → w ≢ step_word →
            reach w (pass_view pass.new) ≡ reach w (pass_view pass.old) }
    {
        self.draw_as::<Brand>(pass, event, lanes)
    }

    fn mark_as<D: Request>(&self, pass: &mut Pass, p: CpuNo, class: u8, n: u64)
        requires picked { (D.cpu ≡ p) × (D.class ≡ class) × (D.number ≡ n) }
        requires table { pass_table pass.old ≡ table_of self.now }
        requires word { (p.0 < cpus_of self.now) × (class ≤ 15) }
        requires drew { Contains (entry_numbers (pass_view pass.old).entries) n }
        ensures table { pass_table pass.new ≡ pass_table pass.old }
        ensures tells { rule.Marks p class n pass.old.seat.me pass.new.seat.me }
    {
        self.table
            .shared
            .fetch_max::<Asks<D>>(&mut pass.seat, request_at(p, class), n.wrapping_add(1));
    }

    /// Asks processor `p` to notice `class`, by the event of number `n`, which this pass drew. `p`
    /// is below the marks' processors, and `class` at most 15.
    pub fn mark(&self, pass: &mut Pass, p: CpuNo, class: u8, n: u64)
        requires table { pass_table pass.old ≡ table_of self.now }
        requires word { (p.0 < cpus_of self.now) × (class ≤ 15) }
        requires drew { Contains (entry_numbers (pass_view pass.old).entries) n }
        ensures table { pass_table pass.new ≡ pass_table pass.old }
        ensures marked { pass_view pass.new ≡ marked (pass_view pass.old) p class n }

        // What the pass knows of the words.
        ensures knows { let w = request_word p class in
            reach w (pass_view pass.new) ≡ max (reach w (pass_view pass.old)) (n + 1) }
        ensures others { (w : ℕ) → w ≢ request_word p class →
            reach w (pass_view pass.new) ≡ reach w (pass_view pass.old) }
    {
        self.mark_as::<Brand>(pass, p, class, n);
    }

    fn look_as<D: Request>(&self, pass: &mut Pass, p: CpuNo, class: u8) -> u64
        requires picked { (D.cpu ≡ p) × (D.class ≡ class) }
        requires table { pass_table pass.old ≡ table_of self.now }
        requires word { (p.0 < cpus_of self.now) × (class ≤ 15) }
        ensures table { pass_table pass.new ≡ pass_table pass.old }
        ensures tells { rule.Looks p class pass.old.seat.me result pass.new.seat.me }
    {
        self.table
            .shared
            .load::<Looks<D>>(&mut pass.seat, request_at(p, class))
    }

    /// Loads the request word of `class` of processor `p`: 0, or one more than the number of an
    /// event that asked. `p` is below the marks' processors, and `class` at most 15.
    pub fn look(&self, pass: &mut Pass, p: CpuNo, class: u8) -> u64
        requires table { pass_table pass.old ≡ table_of self.now }
        requires word { (p.0 < cpus_of self.now) × (class ≤ 15) }
        ensures table { pass_table pass.new ≡ pass_table pass.old }
        ensures looked { pass_view pass.new ≡ looked (pass_view pass.old) p class result }

        // At least what the pass knew of this word.
        ensures least { reach (request_word p class) (pass_view pass.old) ≤ result }

        // What the pass knows of the words.
        ensures knows { reach (request_word p class) (pass_view pass.new) ≡ result }
        ensures step { reach step_word (pass_view pass.new)
            ≡ max (reach step_word (pass_view pass.old)) result }
        ensures others { (w : ℕ) → w ≢ request_word p class → w ≢ step_word →
            reach w (pass_view pass.new) ≡ reach w (pass_view pass.old) }
    {
        self.look_as::<Brand>(pass, p, class)
    }

    fn note_as<D: Noting, S: Shows>(&self, keeper: &mut Keeper, n: u64, after: &S) -> u64
        requires picked { D.note ≡ note_of n (S.states after.now) }
        requires table { keeper_table keeper.old ≡ table_of self.now }
        requires knows { (e : Entry) × Contains (known_entries (keeper_view keeper.old)) e ×
            (e.number ≡ n) × Contains e.lanes (keeper_lane keeper.old) }
        requires above { IsAbove n (keeper_notes keeper.old) }
        ensures same { (keeper_table keeper.new ≡ keeper_table keeper.old) ×
            (keeper_lane keeper.new ≡ keeper_lane keeper.old) }
        ensures tells { rule.Notes (note_of n (S.states after.now)) keeper.old.seat.me result
            keeper.new.seat.me }
    {
        let word = keeper.word;
        self.table
            .shared
            .fetch_add::<Notes<D>>(&mut keeper.seat, word, 1)
    }

    /// Puts the number `n` and the states that `after` shows at the end of the keeper's list, and
    /// answers their place, from 0. The keeper has to know an entry of this number with its lane,
    /// and the number is above the last one on the list.
    pub fn note<S: Shows>(&self, keeper: &mut Keeper, n: u64, after: &S) -> u64
        requires table { keeper_table keeper.old ≡ table_of self.now }
        requires knows { (e : Entry) × Contains (known_entries (keeper_view keeper.old)) e ×
            (e.number ≡ n) × Contains e.lanes (keeper_lane keeper.old) }
        requires above { IsAbove n (keeper_notes keeper.old) }
        ensures same { (keeper_table keeper.new ≡ keeper_table keeper.old) ×
            (keeper_lane keeper.new ≡ keeper_lane keeper.old) }
        ensures noted { keeper_view keeper.new
            ≡ noted (keeper_view keeper.old) (note_of n (S.states after.now)) }
        ensures notes { keeper_notes keeper.new
            ≡ keeper_notes keeper.old ++ note_of n (S.states after.now) ∷ [] }
        ensures place { result ≡ length (keeper_notes keeper.old) }
    {
        self.note_as::<Brand, S>(keeper, n, after)
    }

    /// Each of the two tells the other all that it knows: the pass its entries and what it knows of
    /// the words, by its marks too, and the keeper its list. No entry, mark or look changes its
    /// seat.
    pub fn share(&self, keeper: &mut Keeper, pass: &mut Pass)
        requires { (keeper_table keeper.old ≡ table_of self.now) ×
            (pass_table pass.old ≡ table_of self.now) }
        ensures same { (keeper_table keeper.new ≡ keeper_table keeper.old) ×
            (pass_table pass.new ≡ pass_table pass.old) ×
            (keeper_lane keeper.new ≡ keeper_lane keeper.old) }
        ensures pass { pass_view pass.new
            ≡ both (pass_view pass.old) (telling (keeper_view keeper.old) 0 []) }
        ensures keeper { keeper_view keeper.new
            ≡ both (keeper_view keeper.old) (telling (pass_view pass.old) 0 []) }
        ensures own { HasSame (pass_view pass.old) (pass_view pass.new) ×
            HasSame (keeper_view keeper.old) (keeper_view keeper.new) }

        // Both know the greater value of each word, each entry that either knew, and each beginning
        // of a list.
        ensures words { (w : ℕ) →
            let most = max (reach w (pass_view pass.old)) (reach w (keeper_view keeper.old)) in
            (reach w (pass_view pass.new) ≡ most) × (reach w (keeper_view keeper.new) ≡ most) }
        ensures entries { All (λ e.
            Contains (known_entries (pass_view pass.new)) e ×
            Contains (known_entries (keeper_view keeper.new)) e)
            (known_entries (pass_view pass.old) ++ known_entries (keeper_view keeper.old)) }
        ensures lists { All (λ k.
            Contains (known_lists (pass_view pass.new)) k ×
            Contains (known_lists (keeper_view keeper.new)) k)
            (known_lists (pass_view pass.old) ++ known_lists (keeper_view keeper.old)) }
    {
        let mine = self.table.shared.split_seat::<Tells>(&mut keeper.seat);
        let theirs = self.table.shared.split_seat::<Tells>(&mut pass.seat);
        self.table.shared.join_seat::<Meets>(&mut pass.seat, mine);
        self.table
            .shared
            .join_seat::<Meets>(&mut keeper.seat, theirs);
    }

    /// The keeper takes in all that the pass knows, which tells that its list is the longest one:
    /// each list of its lane that the pass knows is a beginning of it. The pass stays as it is.
    pub fn compare(&self, keeper: &mut Keeper, pass: &mut Pass)
        requires { (keeper_table keeper.old ≡ table_of self.now) ×
            (pass_table pass.old ≡ table_of self.now) }
        ensures same { (keeper_table keeper.new ≡ keeper_table keeper.old) ×
            (pass_table pass.new ≡ pass_table pass.old) ×
            (keeper_lane keeper.new ≡ keeper_lane keeper.old) }
        ensures pass { pass_view pass.new ≡ pass_view pass.old }
        ensures keeper { keeper_view keeper.new
            ≡ both (keeper_view keeper.old) (telling (pass_view pass.old) 0 []) }
        ensures own { HasSame (keeper_view keeper.old) (keeper_view keeper.new) }
        ensures longest { IsLongest (keeper_lane keeper.new) (keeper_notes keeper.new)
            (pass_view pass.new) }
    {
        let told = self.table.shared.split_seat::<Tells>(&mut pass.seat);
        self.table.shared.join_seat::<Meets>(&mut keeper.seat, told);
        let word = keeper.word;
        self.table.shared.load::<Compares>(&mut keeper.seat, word);
    }

    /// A new pass with one of the parts, with no entry, mark or look, which knows what this one
    /// knows. This one has to hold at least two parts, and to have at most as many entries as those
    /// that stay with it allow.
    pub fn split(&self, pass: &mut Pass) -> Pass
        requires table { pass_table pass.old ≡ table_of self.now }
        requires parts { 2 ≤ (pass_view pass.old).parts }
        requires room { length (pass_view pass.old).entries
            ≤ limit_of self.now * ((pass_view pass.old).parts - 1) }
        ensures table { (pass_table pass.new ≡ pass_table pass.old) ×
            (pass_table result ≡ pass_table pass.old) }
        ensures old { pass_view pass.new
            ≡ keeping (pass_view pass.old) ((pass_view pass.old).parts - 1) [] }
        ensures new { pass_view result ≡ telling (pass_view pass.old) 1 [] }
        ensures words { (w : ℕ) → reach w (pass_view result) ≡ reach w (pass_view pass.old) }
    {
        let seat = self.table.shared.split_seat::<OnePart>(&mut pass.seat);
        Pass { seat }
    }

    /// Puts the parts, entries, marks, looks and knowledge of the two passes together.
    pub fn meet(&self, pass: &mut Pass, other: Pass)
        requires table { (pass_table pass.old ≡ table_of self.now) ×
            (pass_table other ≡ table_of self.now) }
        ensures table { pass_table pass.new ≡ pass_table pass.old }
        ensures both { pass_view pass.new ≡ both (pass_view pass.old) (pass_view other) }
        ensures words { (w : ℕ) →
            reach w (pass_view pass.new)
            ≡ max (reach w (pass_view pass.old)) (reach w (pass_view other)) }
    {
        let Pass { seat } = other;
        self.table.shared.join_seat::<Meets>(&mut pass.seat, seat);
    }

    // All passes as one.
    fn meet_all(&self, mut pass: Pass, mut others: Vec<Pass>) -> Pass
        requires table { (pass_table pass ≡ table_of self.now) ×
            All (λ p. pass_table p ≡ table_of self.now) others.items }
        ensures table { pass_table result ≡ table_of self.now }
        ensures all { pass_view result ≡ passes pass others.items }
    {
        while let Some(other) = others.pop() {
            self.meet(&mut pass, other);
        }
        pass
    }

    // A seat takes in a keeper.
    fn take(&self, seat: &mut Seat<u8, View>, keeper: Keeper)
        requires table { (seat.old.table_id ≡ table_of self.now) ×
            (keeper_table keeper ≡ table_of self.now) }
        ensures table { seat.new.table_id ≡ seat.old.table_id }
        ensures both { seat.new.me.0 ≡ both seat.old.me.0 (keeper_view keeper) }
    {
        let Keeper {
            seat: kept,
            lane: _,
            word: _,
        } = keeper;
        self.table.shared.join_seat::<Meets>(seat, kept);
    }

    // A seat takes in all keepers.
    fn take_all(&self, mut seat: Seat<u8, View>, mut keepers: Vec<Keeper>) -> Seat<u8, View>
        requires table { (seat.table_id ≡ table_of self.now) ×
            All (λ k. keeper_table k ≡ table_of self.now) keepers.items }
        ensures table { result.table_id ≡ table_of self.now }
        ensures all { result.me.0 ≡ gathered seat.me.0 (keeper_views keepers.items) }
    {
        while let Some(keeper) = keepers.pop() {
            self.take(&mut seat, keeper);
        }
        seat
    }

    /// Takes all passes, which together hold all parts, and the keepers of all lanes, and answers
    /// how many numbers were drawn.
    pub fn close(self, pass: Pass, others: Vec<Pass>, keepers: Vec<Keeper>) -> Drawn
        requires table { (pass_table pass ≡ table_of self) ×
            All (λ p. pass_table p ≡ table_of self) others.items ×
            All (λ k. keeper_table k ≡ table_of self) keepers.items }
        requires parts { (passes pass others.items).parts ≡ parts_of self }
        requires keepers { length keepers.items ≡ lanes_of self }

        // The numbers drawn are those below the count, each once.
        ensures count { result.count ≡ length (passes pass others.items).entries }
        ensures each_once { IsEachOnce result.count
            (entry_numbers (passes pass others.items).entries) }

        // The keepers keep different lanes. On each list the numbers rise, and each is that of an
        // entry with its lane.
        ensures lanes { IsEachOnce (lanes_of self) (keeper_lanes keepers.items) }
        ensures rise { All (λ k. IsStrictlyIncreasing (note_numbers (keeper_notes k)))
            keepers.items }
        ensures notes { All (λ k.
            All (IsOfEntry (passes pass others.items).entries (keeper_lane k)) (keeper_notes k))
            keepers.items }

        // Each entry that a seat knows is one of the passes, and each prefix one of the list of
        // that lane's keeper.
        ensures known { All
            (λ (v : View). All (Contains (passes pass others.items).entries) v.known)
            (seat_views pass others.items keepers.items) }
        ensures prefixes { All (λ (v : View). All (IsOfKeeper keepers.items) v.prefixes)
            (seat_views pass others.items keepers.items) }

        // Each value that a pass looked was asked.
        ensures looks { All (WasAsked (passes pass others.items)) (passes pass others.items).looks }
    {
        let pass = self.meet_all(pass, others);
        let Pass { seat } = pass;
        let seat = self.take_all(seat, keepers);
        let Marks { table, cpus: _ } = self;
        let closed = table.close_with(seat);
        let count = closed.word(0);
        closed.free();
        Drawn { count }
    }
}
