//! The values of looks.
ghost use Rattle.std.specs.Prelude.{◌≡◌, ◌++◌, ◌∷◌, ◌<◌, [], length, OnErr, OnOk};
ghost use Rattle.nt_history.specs.Briefs.{beside};

use crate::brief::Noticed;
use nt_event::Rises;
use std::alloc::{AllocError, Global};
use std::marker::Model;

/// The values of looks, in their order. Contracts see the list of them.
#[derive(Drop, Debug)]
pub(crate) struct Looks {
    /// Where the values of each look are kept.
    noticed: Vec<Noticed>,
    /// The values of the looks in which several classes rose, in their order.
    several: Vec<Rises>,
}

impl Model for Looks {
    ghost use Rattle.std.specs.Prelude.{List};
    ghost use Rattle.nt_event.specs.declared.events.Rises.{Rises};

    ghost Value = { List Rises };

    ghost use Rattle.nt_history.specs.Values.{AreAmong, rises_in};

    ghost view = { λ a. rises_in a.noticed.items a.several.items };

    ghost invariant = { λ a. AreAmong a.noticed.items a.several.items };
}

/// Adds the values of a look that is kept so, where several classes rose in it. An error is want of
/// memory, and then nothing was added.
fn put_beside(several: &mut Vec<Rises>, noticed: &Noticed, values: &Rises) -> Result<(), AllocError>
    ensures ok { OnOk result
        (several.new.items ≡ several.old.items ++ beside noticed.now values.now) }
    ensures err { OnErr result (several.new.items ≡ several.old.items) }
{
    if let Noticed::Several { .. } = noticed {
        several.push(*values)?;
    }
    Ok(())
}

impl Looks {
    /// No values, and the allocator for their growth.
    pub(crate) fn new(alloc: Global) -> Looks
        ensures { result ≡ [] }
    {
        Looks {
            noticed: Vec::new(alloc),
            several: Vec::new(alloc),
        }
    }

    /// Puts the values of a look at the end. Where no memory is found, the list is as before.
    ///
    /// It is not written into its callers: most turns are no looks.
    #[inline(never)]
    pub(crate) fn push(&mut self, values: &Rises) -> Result<(), AllocError>
        ensures ok { OnOk result (self.new ≡ self.old ++ values.now ∷ []) }
        ensures err { OnErr result (self.new ≡ self.old) }
    {
        self.noticed.reserve(1)?;
        let noticed = Noticed::of_look(values, self.several.len());
        put_beside(&mut self.several, &noticed, values)?;
        self.noticed.push_reserved(noticed);
        Ok(())
    }

    /// The values in order.
    pub(crate) fn walk(&self) -> LookWalk<'_>
        ensures { result ≡ self.now }
    {
        LookWalk {
            noticed: self.noticed.as_slice(),
            several: self.several.as_slice(),
        }
    }
}

/// The values of looks that are left, in order. Contracts see the list of them.
#[derive(Drop)]
pub(crate) struct LookWalk<'a> {
    /// Where the values of each look that is left are kept.
    noticed: &'a [Noticed],
    /// The values of the looks in which several classes rose.
    several: &'a [Rises],
}

impl<'a> Model for LookWalk<'a> {
    ghost use Rattle.std.specs.Prelude.{List};
    ghost use Rattle.nt_event.specs.declared.events.Rises.{Rises};

    ghost Value = { List Rises };

    ghost use Rattle.nt_history.specs.Values.{rises_in};

    ghost view = { λ a. rises_in a.noticed.now a.several.now };
}

impl<'a> LookWalk<'a> {
    /// Takes the first values that are left, and writes them. There are some.
    #[inline(always)]
    pub(crate) fn take(&mut self, values: &mut Rises)
        requires { 0 < length self.old }
        ensures { self.old ≡ values.new ∷ self.new }
    {
        match self.noticed {
            [first, more @ ..] => {
                self.noticed = more;
                first.write_values(self.several, values);
            }
            [] => unreachable!(),
        }
    }
}
