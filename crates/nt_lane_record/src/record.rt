//! What stands behind a lane's lock beside its state.
ghost use Rattle.std.specs.Prelude.{◌≡◌, ◌*◌, ◌+◌, ◌≤◌, ◌<◌, ◌^◌, ◌++◌, ◌∷◌, [], All, Contains};
ghost use Rattle.std.specs.Prelude.{IfOk, OnOk, get_or, length, max, replicate};
ghost use Rattle.nt_event.specs.LaneStates.{told_at};
ghost use Rattle.nt_event.specs.Lists.{table, value_at};
ghost use Rattle.nt_lane_record.specs.Held.{next_of};
ghost use Rattle.nt_lane_record.specs.Pieces.{IsPieceOf};
ghost use Rattle.nt_lane_record.specs.Records.{IsAskKnown, IsMet, IsNoted, raised_list, told_rows};
ghost use Rattle.nt_lane_record.specs.Records.{told_then};
ghost use Rattle.nt_mark.specs.Closing.{IsNewKeeper};
ghost use Rattle.nt_mark.specs.Names.{keeper_lane, keeper_table, pass_table, pass_view, table_of};
ghost use Rattle.nt_mark.specs.Rule.{IsLongest};
ghost use Rattle.nt_mark.specs.Views.{entry, note_of, reach, step_word};
ghost use Rattle.nt_states.specs.LaneLists.{AskFits, as_asks};

use crate::piece::Piece;
use nt_event::{Asked, CpuNo, Event, Plan};
use nt_mark::{Keeper, Marks, Pass, Shared, Shows};
use std::alloc::{AllocError, Global};
use std::marker::{Model, PhantomData};

/// A lane's number, the numbers of its events, per processor and class the greatest value asked on
/// it, and its keeper.
#[derive(Drop)]
pub struct Record<N: Plan + Shared> {
    number: u32,
    /// 16 values for each processor.
    told: Vec<u64>,
    numbers: Vec<u64>,
    keeper: Keeper,
    of: PhantomData<N>,
}

impl<N: Plan + Shared> Model for Record<N> {
    ghost use Rattle.std.specs.Prelude.{◌-◌, ◌*◌, ◌≡◌, length, vec_capacity, vec_len};
    ghost use Rattle.nt_mark.specs.Names.{keeper_lane, keeper_notes, keeper_table, keeper_view};
    ghost use Rattle.nt_mark.specs.Views.{reach, step_word};
    ghost use Rattle.nt_lane_record.specs.Records.{IsTied, LaneRecord, told_rows};

    ghost Value = { LaneRecord };

    ghost view = { λ s. record {
      lane = s.number;
      notes = keeper_notes s.keeper;
      told = told_rows N.script.cpus s.told.items;
      known = reach step_word (keeper_view s.keeper);
      room = vec_capacity s.numbers - vec_len s.numbers;
    } };

    ghost invariant = { λ s.
        (length s.told.items ≡ N.script.cpus * 16) ×
        IsTied N.table s.number (told_rows N.script.cpus s.told.items) s.numbers.items
        (keeper_table s.keeper) (keeper_lane s.keeper) (keeper_view s.keeper) };
}

impl<N: Plan + Shared> Record<N> {
    /// The record of a lane on which nothing happened, of a script with so many processors.
    pub fn new(
        alloc: Global,
        number: u32,
        cpus: u8,
        keeper: Keeper,
    ) -> Result<Record<N>, AllocError>
        requires cpus { cpus ≡ N.script.cpus }
        requires keeper { IsNewKeeper N.table number keeper }
        ensures lane { IfOk result (λ r. (r.lane ≡ number) × (r.notes ≡ [])) }
        ensures told { IfOk result
            (λ r. r.told ≡ told_rows N.script.cpus (replicate (cpus * 16) 0)) }
    {
        let count = usize::from(cpus) * 16;
        let told = nothing_told(alloc, count)?;
        Ok(Record {
            number,
            told,
            numbers: Vec::new(alloc),
            keeper,
            of: PhantomData,
        })
    }

    /// The numbers of the lane's events, and its keeper.
    pub fn close(self) -> (Piece, Keeper)
        ensures { IsPieceOf N.table result.0 result.1 }
    {
        let Record {
            number,
            told: _,
            numbers,
            keeper,
            of: _,
        } = self;
        (
            Piece {
                lane: number,
                numbers,
            },
            keeper,
        )
    }

    /// The lane's number.
    pub fn number(&self) -> u32
        ensures { result ≡ self.now.lane }
    {
        self.number
    }

    /// Room for one event more.
    pub fn reserve(&mut self) -> Result<(), AllocError>
        ensures ok { OnOk result (1 ≤ self.new.room) }
        ensures same { (self.new.lane ≡ self.old.lane) × (self.new.notes ≡ self.old.notes) ×
            (self.new.told ≡ self.old.told) × (self.new.known ≡ self.old.known) }
    {
        self.numbers.reserve(1)?;
        Ok(())
    }

    /// The lane and a pass tell each other what they know.
    pub fn meet(&mut self, marks: &Marks, pass: &mut Pass)
        requires table { (table_of marks.now ≡ N.table) × (pass_table pass.old ≡ N.table) }
        ensures table { pass_table pass.new ≡ N.table }
        ensures met { IsMet self.old self.new (pass_view pass.old) (pass_view pass.new) }
        ensures above { next_of self.new.notes ≤ self.new.known }
    {
        marks.share(&mut self.keeper, pass);
    }

    /// The lane takes in what a pass knows, which tells that the pass knows no list of the lane
    /// that goes beyond its own.
    pub fn compare(&mut self, marks: &Marks, pass: &mut Pass)
        requires table { (table_of marks.now ≡ N.table) × (pass_table pass.old ≡ N.table) }
        ensures table { pass_table pass.new ≡ N.table }
        ensures same { (self.new.lane ≡ self.old.lane) × (self.new.notes ≡ self.old.notes) ×
            (self.new.told ≡ self.old.told) }
        ensures pass { pass_view pass.new ≡ pass_view pass.old }
        ensures longest { IsLongest self.old.lane self.old.notes (pass_view pass.new) }
    {
        marks.compare(&mut self.keeper, pass);
    }

    /// The greater ones of these values and those that the lane tells for a processor, by class.
    pub fn raise(&self, p: CpuNo, values: &mut [u64; 16])
        requires { p.0 < N.script.cpus }
        ensures { values.new
            ≡ table 16 (λ c. max (told_at self.now.told p c) (value_at values.old c)) }
    {
        let first = usize::from(p.0) * 16;
        raise_from(values, self.told.as_slice(), first);
    }
}

/// So many values of which nothing is told.
fn nothing_told(alloc: Global, count: usize) -> Result<Vec<u64>, AllocError>
    ensures { IfOk result (λ v. v.items ≡ replicate count 0) }
{
    vec![in alloc; 0u64; count]
}

/// The greater one of each of these values and of the 16 from this place on.
fn raise_from(values: &mut [u64; 16], told: &[u64], first: usize)
    requires { first + 16 ≤ length told.now }
    ensures { values.new
        ≡ table 16 (λ c. max (get_or told.now (first + c) 0) (value_at values.old c)) }
{
    for i in 0..16 {
        let value = told[first + i];
        if values[i] < value {
            values[i] = value;
        }
    }
}

/// The asks of the event of this number are told.
fn tell(told: &mut Vec<u64>, asks: &[Asked], n: u64)
    requires places { All (λ a. a.cpu.0 * 16 + a.class < length told.old.items) asks.now }
    requires number { n + 1 < 2 ^ 64 }
    ensures { told.new.items ≡ raised_list n (as_asks asks.now) told.old.items }
{
    for ask in asks {
        told[usize::from(ask.cpu.0) * 16 + usize::from(ask.class)] = n + 1;
    }
}

/// What stands in a lane.
pub trait Holds {
    ghost use Rattle.std.specs.Prelude.{ℕ};
    ghost use Rattle.nt_event.specs.declared.jobs.Lane.{Lane};
    ghost use Rattle.nt_event.specs.declared.scripts.Script.{Script};
    ghost use Rattle.nt_event.specs.LaneStates.{Content};

    /// Which lane it is the state of.
    ghost name: { Self → Lane };

    /// Its content.
    ghost content: { Self → Content };

    /// The time; 0 where it is no state of timers.
    ghost time: { Self → ℕ };

    /// It is of the script.
    ghost fits: { Script → Self → Type 0 };

    ghost fits_prop: { (s : Script) (x : Self) → IsProp (fits s x) };
}

/// A lane's content with what the lane tells of requests: the state that a note shows.
#[derive(Drop)]
struct Shown<'a, N: Plan, C> {
    content: &'a C,
    told: &'a Vec<u64>,
    of: PhantomData<N>,
}

impl<N: Plan, C: Holds> Shows for Shown<'_, N, C> {
    ghost use Rattle.std.specs.Prelude.{[], ◌∷◌};
    ghost use Rattle.nt_lane_record.specs.Records.{told_rows};

    ghost states = { λ s.
        record {
          content = C.content s.content.now;
          told = told_rows N.script.cpus s.told.now.items;
        } ∷ [] };
}

impl<N: Plan + Shared> Record<N> {
    /// Notes an event of the pass, with the content that it leaves and the asks that it adds to
    /// what the lane tells.
    ///
    /// The pass drew it after it met the lane, with this lane among its lanes, and knows each of
    /// its asks.
    pub fn note<C: Holds>(
        &mut self,
        marks: &Marks,
        pass: &mut Pass,
        n: u64,
        event: &Event,
        lanes: &[u32],
        asks: &[Asked],
        content: &C,
    )
        requires table { (table_of marks.now ≡ N.table) × (pass_table pass.old ≡ N.table) }
        requires room { 1 ≤ self.old.room }
        requires drew { Contains (pass_view pass.old).entries (entry n event.now lanes.now) }
        requires touched { Contains lanes.now self.old.lane }
        requires above { (self.old.known ≤ n) × (n < reach step_word (pass_view pass.old)) }
        requires number { n + 1 < 2 ^ 64 }
        requires asks { All (AskFits N.script) (as_asks asks.now) }
        requires asked { All (IsAskKnown n (pass_view pass.old)) (as_asks asks.now) }
        ensures table { pass_table pass.new ≡ N.table }
        ensures noted { IsNoted self.old self.new (pass_view pass.old) (pass_view pass.new)
            (note_of n
            (record {
              content = C.content content.now;
              told = told_then N.script.cpus n (as_asks asks.now) self.old.told;
            } ∷ []))
            (told_then N.script.cpus n (as_asks asks.now) self.old.told) }
    {
        let _event = event;
        marks.share(&mut self.keeper, pass);
        tell(&mut self.told, asks, n);
        let shown = Shown::<N, C> {
            content,
            told: &self.told,
            of: PhantomData,
        };
        marks.note(&mut self.keeper, n, &shown);
        self.numbers.push_reserved(n);
        marks.share(&mut self.keeper, pass);
    }
}
