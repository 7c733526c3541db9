//! The seat of a processor over the lanes.
ghost use Rattle.std.specs.Prelude.{◌≡◌};
ghost use Rattle.nt_event.specs.Lanes.{lane_count};
ghost use Rattle.nt_lane.specs.Seats.{AreListed};
ghost use Rattle.nt_mark.specs.Names.{cpus_of, lanes_of, pass_table, pass_view, table_of};

use crate::lanes::Lanes;
use nt_event::{CpuNo, Event, Plan};
use nt_floor::Words;
use nt_mark::{Marks, Pass, Shared};

/// A pass, with the lanes and the marks that it is of, and the number that it drew last. Contracts
/// see it as its pass.
///
/// It draws, marks and looks without a lock; an act takes the locks of the lanes that it reads and
/// touches.
pub struct LaneSeat<'a, 's, N: Plan + Shared, R> {
    pub(crate) rt: &'a R,
    pub(crate) lanes: &'a Lanes<'s, N>,
    pub(crate) marks: &'a Marks,
    pub(crate) pass: Pass,
    pub(crate) last: u64,
    ghost words: { table_of marks.now ≡ N.table },
    ghost cpus: { cpus_of marks.now ≡ N.script.cpus },
    ghost all_lanes: { lanes_of marks.now ≡ lane_count N.script },
    ghost seat: { pass_table pass ≡ N.table },
    ghost listed: { ∥ AreListed (pass_view pass) ∥₁ },
}

impl<'a, 's, N: Plan + Shared, R> LaneSeat<'a, 's, N, R> {
    /// The seat of a pass of N's table, with marks for its script's processors and lanes. The pass
    /// knows each of its entries on the list of each lane of that entry.
    pub fn new(
        rt: &'a R,
        lanes: &'a Lanes<'s, N>,
        marks: &'a Marks,
        pass: Pass,
    ) -> LaneSeat<'a, 's, N, R>
        requires table { (table_of marks.now ≡ N.table) × (pass_table pass ≡ N.table) }
        requires marks { (cpus_of marks.now ≡ N.script.cpus) ×
            (lanes_of marks.now ≡ lane_count N.script) }
        requires listed { ∥ AreListed (pass_view pass) ∥₁ }
        ensures { (result.pass ≡ pass) × ((result.marks.now ≡ marks.now) × (result.last ≡ 0)) }
    {
        LaneSeat {
            rt,
            lanes,
            marks,
            pass,
            last: 0,
        }
    }

    /// The number that it drew last; 0 where it drew none.
    pub fn last(&self) -> u64
        ensures { result ≡ self.now.last }
    {
        self.last
    }

    /// The pass, which knows each of its entries on the list of each lane of that entry.
    pub fn leave(self) -> Pass
        ensures pass { result ≡ self.entry.pass }
        ensures table { pass_table result ≡ N.table }
        ensures listed { ∥ AreListed (pass_view result) ∥₁ }
    {
        let LaneSeat {
            rt: _,
            lanes: _,
            marks: _,
            pass,
            last: _,
        } = self;
        pass
    }
}

impl<N: Plan + Shared, R> Words for LaneSeat<'_, '_, N, R> {
    ghost use Rattle.std.specs.Prelude.{◌≡◌, Contains};
    ghost use Rattle.nt_mark.specs.Names.{pass_view};
    ghost use Rattle.nt_mark.specs.Views.{entry_numbers};
    ghost use Rattle.nt_mark.specs.declared.view.Entry.{Entry};
    ghost use Rattle.nt_lane.specs.Views.{SeatGrows, seat_same, seat_through, words_of};

    ghost view = { λ s. words_of s.marks.now (pass_view s.pass) };

    ghost drew = { λ s n. (e : Entry) × Contains (pass_view s.pass).entries e × (e.number ≡ n) };

    ghost grows = { λ s t. SeatGrows s.last t.last (pass_view s.pass) (pass_view t.pass) };

    ghost drew_later = { λ x y n g d. (d.0, g.view.entries d.0 d.1, d.2) };

    ghost grows_same = { λ x. seat_same x.last (pass_view x.pass) };

    ghost grows_through = { λ x y z g h.
        seat_through x.last y.last z.last (pass_view x.pass) (pass_view y.pass) (pass_view z.pass)
        g h };

    fn draw(&mut self, event: &Event) -> u64 {
        self.last = self.marks.draw(&mut self.pass, event, &[]);
        self.last
    }

    fn mark(&mut self, p: CpuNo, class: u8, n: u64) {
        self.marks.mark(&mut self.pass, p, class, n);
    }

    fn look(&mut self, p: CpuNo, class: u8) -> u64 {
        self.marks.look(&mut self.pass, p, class)
    }
}
