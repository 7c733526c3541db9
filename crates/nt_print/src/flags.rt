//! A flag for each number below a count.
ghost use Rattle.std.specs.Prelude.{◌≡◌, ◌<◌, ◌≤◌, length, true};
ghost use Rattle.nt_print.specs.Flags.{AreClear};

use std::alloc::{AllocError, Global};
use std::marker::Model;

/// How many flags are looked at at once.
const BLOCK: usize = 64;

/// Whether none of these flags is set. It looks at each, so that many are looked at at once.
fn are_clear(flags: &[bool]) -> bool
    ensures { result ≡ true → AreClear flags.now 0 (length flags.now) }
{
    let mut any = false;
    for flag in flags {
        any |= *flag;
    }
    !any
}

/// The place of the first of these flags that is set; 0 where none is.
fn first_set(flags: &[bool]) -> usize
    ensures place { result ≤ length flags.now }
    ensures clear { AreClear flags.now 0 result }
{
    match flags.iter().position(|flag| *flag) {
        Some(place) => place,
        None => 0,
    }
}

/// Where a block ends that begins at this number, of so many.
fn block_end(number: usize, count: usize) -> usize
    requires { number < count }
    ensures { (number < result) × (result ≤ count) }
{
    if count - number < BLOCK {
        count
    } else {
        number + BLOCK
    }
}

/// A flag for each number below a count. Contracts see the list of them.
#[derive(Drop)]
pub(crate) struct Flags {
    flags: Vec<bool>,
}

impl Model for Flags {
    ghost use Rattle.std.specs.Prelude.{Bool, List};

    ghost Value = { List Bool };

    ghost view = { λ a. a.flags.items };
}

impl Flags {
    ghost use Rattle.std.specs.Prelude.{◌≡◌, ◌≤◌, IfOk, false, true, get_or, length, replicate};
    ghost use Rattle.std.specs.Prelude.{slice_set};
    ghost use Rattle.nt_print.specs.Flags.{AreClear};

    /// So many flags, none of which is set.
    pub(crate) fn new(alloc: Global, count: usize) -> Result<Flags, AllocError>
        ensures { IfOk result (λ flags. flags ≡ replicate count false) }
    {
        Ok(Flags {
            flags: vec![in alloc; false; count]?,
        })
    }

    /// A number from this one on, before which no flag is set. Whole blocks of flags that are clear
    /// are passed at once.
    pub(crate) fn pass_clear(&self, from: usize) -> usize
        requires { from ≤ length self.now }
        ensures place { (from ≤ result) × (result ≤ length self.now) }
        ensures clear { AreClear self.now from result }
    {
        let count = self.flags.len();
        let mut number = from;
        while number < count {
            let end = block_end(number, count);
            let block = &self.flags[number..end];
            if !are_clear(block) {
                return number + first_set(block);
            }
            number = end;
        }
        number
    }

    /// Whether this number has a flag that is set.
    pub(crate) fn is_set(&self, number: usize) -> bool
        ensures { result ≡ get_or self.now number false }
    {
        if number < self.flags.len() {
            self.flags[number]
        } else {
            false
        }
    }

    /// Sets the flag of this number, where it has one.
    pub(crate) fn set(&mut self, number: usize)
        ensures { self.new ≡ slice_set self.old number true }
    {
        if number < self.flags.len() {
            self.flags[number] = true;
        }
    }

    /// Clears the flag of this number, where it has one.
    pub(crate) fn clear(&mut self, number: usize)
        ensures { self.new ≡ slice_set self.old number false }
    {
        if number < self.flags.len() {
            self.flags[number] = false;
        }
    }
}
