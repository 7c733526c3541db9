//! How states were found, in few bytes each: the values of looks stand apart.
ghost use Rattle.std.specs.Prelude.{◌≡◌, ◌<◌, ◌∷◌, ◌++◌, [], IfOk, OnErr, OnOk, get_or, length};
ghost use Rattle.nt_search.specs.Keys.{GoesOn};
ghost use Rattle.nt_search.specs.Steps.{IsIn, turn_in};

use crate::states::Way;
use nt_event::{CpuNo, Rises, ThreadNo, Turn};
use std::alloc::{AllocError, Global};
use std::marker::Model;

/// A turn, where a look has a number in place of its values.
#[derive(Clone, Copy)]
enum Move {
    Next(CpuNo),
    /// The number of its values among all.
    Look(CpuNo, u32),
    Switch(CpuNo, ThreadNo),
}

/// A way, in few bytes.
#[derive(Clone, Copy)]
struct Step {
    from: u32,
    by: Move,
}

/// How states were found, in the order of their numbers.
#[derive(Drop)]
pub(crate) struct Ways {
    steps: Vec<Step>,
    /// The values of looks.
    looks: Vec<Rises>,
}

impl Model for Ways {
    ghost use Rattle.std.specs.Prelude.{List};
    ghost use Rattle.nt_search.specs.declared.states.Way.{Way as TheWay};
    ghost use Rattle.nt_search.specs.Steps.{AreIn, ways_in};

    ghost Value = { List TheWay };

    ghost view = { λ a. ways_in a.looks.items a.steps.items };

    ghost invariant = { λ a. AreIn a.looks.items a.steps.items };
}

/// The turn that moves so, where these are the values of looks.
fn turn_of(looks: &[Rises], by: &Move) -> Turn
    requires { IsIn looks.now by.now }
    ensures { result ≡ turn_in looks.now by.now }
{
    match by {
        Move::Next(cpu) => Turn::Next(*cpu),
        Move::Look(cpu, number) => Turn::Look(*cpu, looks[*number as usize]),
        Move::Switch(cpu, thread) => Turn::Switch(*cpu, *thread),
    }
}

/// The number that the next values get.
fn next_number(looks: &Vec<Rises>) -> Result<u32, AllocError>
    ensures { IfOk result (λ n. n ≡ length looks.now.items) }
{
    match u32::try_from(looks.len()) {
        Ok(number) => Ok(number),
        Err(_) => Err(AllocError),
    }
}

/// How the turn moves. The values of a look are added to these.
fn move_of(looks: &mut Vec<Rises>, turn: &Turn) -> Result<Move, AllocError>
    ensures more { GoesOn looks.old.items looks.new.items }
    ensures by { IfOk result (λ by. IsIn looks.new.items by ×
        (turn_in looks.new.items by ≡ turn.now)) }
{
    match turn {
        Turn::Next(cpu) => Ok(Move::Next(*cpu)),
        Turn::Look(cpu, rises) => {
            let number = next_number(looks)?;
            looks.push(*rises)?;
            Ok(Move::Look(*cpu, number))
        }
        Turn::Switch(cpu, thread) => Ok(Move::Switch(*cpu, *thread)),
    }
}

impl Ways {
    /// None.
    pub(crate) fn new(alloc: Global) -> Ways
        ensures { result ≡ [] }
    {
        Ways {
            steps: Vec::new(alloc),
            looks: Vec::new(alloc),
        }
    }

    /// How many there are.
    pub(crate) fn len(&self) -> usize
        ensures { result ≡ length self.now }
    {
        self.steps.len()
    }

    /// How the state of this number was found.
    pub(crate) fn get(&self, number: u32) -> Way
        requires { number < length self.now }
        ensures { result ≡ get_or self.now number result }
    {
        let step = &self.steps[number as usize];
        Way {
            from: step.from,
            turn: turn_of(self.looks.as_slice(), &step.by),
        }
    }

    /// Adds how the next state was found. After an error they are as they were.
    pub(crate) fn push(&mut self, way: Way) -> Result<(), AllocError>
        ensures ok { OnOk result (self.new ≡ self.old ++ way ∷ []) }
        ensures err { OnErr result (self.new ≡ self.old) }
    {
        let by = move_of(&mut self.looks, &way.turn)?;
        self.steps.push(Step { from: way.from, by })?;
        Ok(())
    }
}
