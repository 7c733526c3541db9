//! What a seat has and knows. No value of these types is made: contracts and the rule of the table
//! alone speak of them.
use nt_event::{CpuNo, Event};
use std::collections::LinkedList;
use std::marker::Model;

/// A number that was drawn, with its event and the lanes that the event touches.
pub struct Entry {
    pub number: u64,
    pub event: Event,
    pub lanes: LinkedList<u32>,
}

/// A request: the event of this number asks this processor to notice this class.
pub struct Mark {
    pub cpu: CpuNo,
    pub class: u8,
    pub number: u64,
}

/// What a look found in the request word of this processor and class.
pub struct Look {
    pub cpu: CpuNo,
    pub class: u8,
    pub value: u64,
}

/// The states of the lanes behind one lock. Contracts see it as the record of the specs, which no
/// code looks into.
pub struct Shown {
    nothing: u64,
}

impl Model for Shown {
    ghost use Rattle.nt_mark.specs.LaneState.{LaneState, any_state};

    ghost Value = { LaneState };

    ghost view = { λ s. any_state };
}

/// A place on a lane's list: the number of an event that touched the lane, and the states after it.
pub struct Note {
    pub number: u64,
    pub states: LinkedList<Shown>,
}

/// A lane's list, or a beginning of it, with the word that counts its notes.
pub struct LaneList {
    pub lane: u64,
    pub word: u64,
    pub notes: LinkedList<Note>,
}

/// A value that a word has reached.
pub struct Reached {
    pub word: u64,
    pub value: u64,
}

/// What a seat has: parts, lanes, entries, marks and looks. And what it knows: values that words
/// have reached, entries, and beginnings of lanes' lists.
pub struct View {
    pub parts: u64,
    pub kept: LinkedList<LaneList>,
    pub entries: LinkedList<Entry>,
    pub marks: LinkedList<Mark>,
    pub looks: LinkedList<Look>,
    pub reached: LinkedList<Reached>,
    pub known: LinkedList<Entry>,
    pub prefixes: LinkedList<LaneList>,
}

/// How many processors, lanes and parts there are, and how many numbers may be drawn for each part.
#[derive(Clone, Copy)]
pub struct Sizes {
    pub cpus: u64,
    pub lanes: u64,
    pub parts: u64,
    pub limit: u64,
}
