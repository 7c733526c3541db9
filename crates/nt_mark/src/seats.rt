//! The seats of the table, and its rule.
ghost use Rattle.std.specs.Prelude.{◌≡◌, ◌<◌, [], ◌∷◌, length};
ghost use Rattle.nt_mark.specs.Views.{kept_lanes, kept_words};

use crate::view::{Sizes, View};
use atomic_table::{Seat, TableRule};

/// The rule that holds between any two steps.
pub struct Law;

impl TableRule<u8, View, Sizes> for Law {
    ghost use Rattle.nt_mark.specs.Rule.{Holds, opening_view};

    ghost holds = { λ key s. Holds key s };

    ghost first = { opening_view };
}

/// What one thread draws, marks and looks with. It holds at least one part of its marks and keeps
/// no lane. It has no bytes.
#[derive(Drop)]
pub struct Pass {
    pub(crate) seat: Seat<u8, View>,
    ghost part: { 0 < seat.me.0.parts },
    ghost no_lane: { length seat.me.0.kept ≡ 0 },
    ghost no_slot: { seat.me.1 ≡ [] },
}

/// What notes the events of one lane, and what passes tell each other by. It holds no part, so it
/// draws and marks nothing. It is meant to lie behind the lane's lock.
#[derive(Drop)]
pub struct Keeper {
    pub(crate) seat: Seat<u8, View>,
    pub(crate) lane: u32,
    pub(crate) word: usize,
    ghost one_lane: { kept_lanes seat.me.0 ≡ lane ∷ [] },
    ghost its_word: { kept_words seat.me.0 ≡ word ∷ [] },
    ghost inside: { word < seat.table_id.words },
    ghost no_part: { seat.me.0.parts ≡ 0 },
    ghost no_entry: { length seat.me.0.entries ≡ 0 },
    ghost no_mark: { length seat.me.0.marks ≡ 0 },
    ghost no_look: { length seat.me.0.looks ≡ 0 },
    ghost no_slot: { seat.me.1 ≡ [] },
}

impl Keeper {
    ghost use Rattle.nt_mark.specs.Names.{keeper_lane};

    /// The number of its lane.
    pub fn lane(&self) -> u32
        ensures { result ≡ keeper_lane self.now }
    {
        self.lane
    }
}
