//! The states that were found, each by what tells it apart.
ghost use Rattle.std.specs.Prelude.{◌≡◌, ◌<◌, ◌≤◌, ◌∷◌, ◌++◌, [], IfErr, IfOk, List, OnErr, OnOk};
ghost use Rattle.std.specs.Prelude.{IsTrue, Some, false, get_or, length, position, slice_get};
ghost use Rattle.std.specs.List.{list_any};
ghost use Rattle.nt_event.specs.declared.events.Event.{Event as TheEvent};
ghost use Rattle.nt_event.specs.declared.scripts.Script.{Script as TheScript};
ghost use Rattle.nt_search.specs.declared.states.Key.{Key as TheKey};
ghost use Rattle.nt_search.specs.Keys.{AreNumbered};
ghost use Rattle.nt_search.specs.States.{HasGrown, IsPutStop, are_equal, number_in, put as put_in};
ghost use Rattle.nt_search.specs.Stations.{IsPath};
ghost use Rattle.nt_search.specs.Ways.{AreWays, Lead};

use crate::parts::Parts;
use crate::stations::{Path, Stations};
use crate::stop::Stop;
use crate::ways::Ways;
use indexmap::IndexSet;
use nt_event::Turn;
use nt_shade::Shade;
use std::alloc::{AllocError, Global};
use std::marker::Model;

/// What tells a state apart: the numbers of the parts of the shade of its histories, and that of
/// the flags that tell which of the events that are watched for came.
#[derive(Clone, Copy, PartialEq, Eq, Hash, Debug)]
pub(crate) struct Key {
    pub(crate) dpcs: u32,
    pub(crate) counts: u32,
    pub(crate) threads: u32,
    pub(crate) cpus: u32,
    /// That of the flags, in the order in which the events are watched for.
    pub(crate) came: u32,
    /// What a search tells apart besides: a hunt how it came to the state; otherwise 0.
    pub(crate) mark: u32,
}

/// How a state was found first.
#[derive(Clone, Copy, Debug)]
pub struct Way {
    /// The number of the state that it was found from.
    pub from: u32,
    /// The turn taken there.
    pub turn: Turn,
}

/// The states in the order in which they were found, by numbers from 0. State 0 is that of no
/// event; its way means nothing.
#[derive(Drop)]
pub struct States {
    parts: Parts,
    keys: IndexSet<Key>,
    ways: Ways,
}

impl Model for States {
    ghost use Rattle.nt_search.specs.States.{Seen};

    ghost Value = { Seen };

    ghost view = { λ a. record { parts = a.parts; keys = a.keys.keys; ways = a.ways } };
}

/// Whether a machine that comes from the state of this number begins there: as the one at that
/// place, or with no event.
fn begins_at(station: Option<usize>, state: u32) -> bool
    ensures there { IsTrue result → station ≡ None → state ≡ 0 }
    ensures later { result ≡ false → 0 < state }
{
    station.is_some() || state == 0
}

impl States {
    /// No states.
    pub(crate) fn new(alloc: Global) -> States
        ensures keys { result.keys ≡ [] }
        ensures ways { result.ways ≡ [] }
    {
        States {
            parts: Parts::new(alloc),
            keys: IndexSet::new(alloc),
            ways: Ways::new(alloc),
        }
    }

    /// The key of the state with this shade, where this came, and this mark, be it among the states
    /// or not. Parts that are new are kept; after an error some of them may be.
    pub(crate) fn number(
        &mut self,
        shade: Shade,
        came: Vec<bool>,
        mark: u32,
    ) -> Result<Key, AllocError>
        ensures grown { HasGrown self.old self.new }
        ensures numbered { IfOk result (λ key. AreNumbered self.new.parts key shade came) }
    {
        self.parts.number(shade, came, mark)
    }

    /// Whether the state of this number is one with this shade, where this came.
    pub(crate) fn is_of(&self, number: u32, shade: &Shade, came: &Vec<bool>) -> bool
        ensures { IsTrue result → (key : TheKey) × (slice_get self.now.keys number ≡ Some key) ×
            AreNumbered self.now.parts key shade.now came.now }
    {
        match self.keys.get_index(number as usize) {
            Some(key) => self.parts.are_of(key, shade, came),
            None => false,
        }
    }

    /// How many there are.
    pub fn len(&self) -> usize
        ensures { result ≡ length self.now.ways }
    {
        self.ways.len()
    }

    /// The mark of the state of this number; 0 where there is none.
    pub(crate) fn mark_of(&self, number: u32) -> u32 {
        match self.keys.get_index(number as usize) {
            Some(key) => key.mark,
            None => 0,
        }
    }

    /// The number of the state with this key, if there is one.
    pub(crate) fn number_of(&self, key: &Key) -> Option<usize>
        ensures { result ≡ position (are_equal key.now) self.now.keys }
    {
        self.keys.get_index_of(key)
    }

    /// Adds a state with this key, to which the way leads. After an error the states are as they
    /// were.
    pub(crate) fn add(&mut self, key: Key, way: Way) -> Result<(), AllocError>
        requires { list_any (are_equal key) self.old.keys ≡ false }
        ensures added { OnOk result (self.new ≡ record self.old
            { keys = self.old.keys ++ key ∷ []; ways = self.old.ways ++ way ∷ [] }) }
        ensures err { OnErr result (self.new ≡ self.old) }
    {
        self.keys.reserve(1)?;
        self.ways.push(way)?;
        self.keys.insert(key)?;
        Ok(())
    }

    /// The number of a state with this key that is added, where there are fewer than so many.
    fn add_within(&mut self, key: Key, way: Way, most: u32) -> Result<u32, Stop>
        requires new { list_any (are_equal key) self.old.keys ≡ false }
        requires few { length self.old.ways ≤ most }
        ensures added { OnOk result (self.new ≡ record self.old
            { keys = self.old.keys ++ key ∷ []; ways = self.old.ways ++ way ∷ [] }) }
        ensures number { IfOk result (λ n. n ≡ length self.old.ways) }
        ensures within { OnOk result (length self.old.ways < most) }
        ensures err { OnErr result (self.new ≡ self.old) }
        ensures cause { IfErr result (IsPutStop most self.old) }
    {
        let number = self.ways.len();
        if most as usize <= number {
            return Err(Stop::States);
        }
        self.add(key, way)?;
        Ok(number as u32)
    }

    /// The number of the state with this key. Where there is none, one is added, to which the way
    /// leads, or there are so many that it may not be. After an error the states are as they were.
    pub(crate) fn put(&mut self, key: Key, way: Way, most: u32) -> Result<u32, Stop>
        requires few { length self.old.ways ≤ most }
        requires count { length self.old.keys ≡ length self.old.ways }
        ensures put { OnOk result (self.new ≡ put_in key way self.old) }
        ensures number { IfOk result (λ n. n ≡ number_in key self.old) }
        ensures few { length self.new.ways ≤ most }
        ensures err { OnErr result (self.new ≡ self.old) }
        ensures cause { IfErr result (IsPutStop most self.old) }
    {
        match self.number_of(&key) {
            Some(number) => Ok(number as u32),
            None => self.add_within(key, way, most),
        }
    }

    /// How a machine comes to the state of this number where these machines are kept.
    pub(crate) fn path_to(
        &self,
        alloc: Global,
        stations: &Stations,
        number: u32,
    ) -> Result<Path, AllocError>
        requires number { number < length self.now.ways }
        requires ways { (s : TheScript) × (all : List (List TheEvent)) ×
            AreWays s all self.now.ways }
        ensures { IfOk result (λ p. (s : TheScript) (all : List (List TheEvent)) →
            AreWays s all self.now.ways → IsPath s all stations.now number p) }
    {
        let mut turns = Vec::new(alloc);
        let mut at = number;
        let mut station = stations.place_of(at);
        while !begins_at(station, at) {
            let way = self.ways.get(at);
            turns.push(way.turn)?;
            at = way.from;
            station = stations.place_of(at);
        }
        turns.reverse();
        Ok(Path { station, turns })
    }

    /// The turns that lead to the state of this number from that of no event, in order.
    pub fn turns_to(&self, alloc: Global, number: u32) -> Result<Vec<Turn>, AllocError>
        requires number { number < length self.now.ways }
        requires ways { (s : TheScript) × (all : List (List TheEvent)) ×
            AreWays s all self.now.ways }
        ensures { IfOk result (λ turns. (s : TheScript) (all : List (List TheEvent)) →
            AreWays s all self.now.ways → Lead s turns.items [] (get_or all number [])) }
    {
        let path = self.path_to(alloc, &Stations::new(alloc), number)?;
        Ok(path.turns)
    }
}
