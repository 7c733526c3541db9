//! What the steps on the table tell. A step is told by a type, so what it puts into a view (an
//! event, a request, states) is given by ghost members of a type parameter, which the calls of
//! `Marks` pick.
use crate::view::View;
use atomic_table::{Join, Play, Split};
use std::marker::{Brand, PhantomData};

/// What a draw puts into the pass, and the bound that its number is below.
pub trait Drawing {
    ghost use Rattle.std.specs.Prelude.{ℕ, List};
    ghost use Rattle.nt_event.specs.declared.events.Event.{Event};

    ghost event: { Event };

    ghost lanes: { List ℕ };

    ghost most: { ℕ };
}

impl Drawing for Brand {
    ghost use Rattle.std.specs.Prelude.{[], None};
    ghost use Rattle.nt_event.specs.declared.events.What.TheVariants.{Rest};

    ghost event = { record { cpu = record { 0 = 0 }; thread = None; level = 0; what = Rest } };

    ghost lanes = { [] };

    ghost most = { 0 };
}

/// The processor and class of a request word, and the number that is marked there.
pub trait Request {
    ghost use Rattle.std.specs.Prelude.{ℕ};
    ghost use Rattle.nt_event.specs.declared.numbers.CpuNo.{CpuNo};

    ghost cpu: { CpuNo };

    ghost class: { ℕ };

    ghost number: { ℕ };
}

impl Request for Brand {
    ghost cpu = { record { 0 = 0 } };

    ghost class = { 0 };

    ghost number = { 0 };
}

/// What a note puts at the end of a list.
pub trait Noting {
    ghost use Rattle.nt_mark.specs.declared.view.Note.{Note};

    ghost note: { Note };
}

impl Noting for Brand {
    ghost use Rattle.std.specs.Prelude.{[]};
    ghost use Rattle.nt_mark.specs.Views.{note_of};

    ghost note = { note_of 0 [] };
}

/// A fetch_add of the step word.
pub struct Draws<D> {
    of: PhantomData<D>,
}

impl<D: Drawing> Play<u8, View> for Draws<D> {
    ghost use Rattle.nt_mark.specs.Rule as rule;

    ghost then = { λ s m n m'. rule.Draws D.event D.lanes D.most m n m' };
}

/// A fetch_max of a request word.
pub struct Asks<D> {
    of: PhantomData<D>,
}

impl<D: Request> Play<u8, View> for Asks<D> {
    ghost use Rattle.nt_mark.specs.Rule as rule;

    ghost then = { λ s m n m'. rule.Marks D.cpu D.class D.number m m' };
}

/// A load of a request word.
pub struct Looks<D> {
    of: PhantomData<D>,
}

impl<D: Request> Play<u8, View> for Looks<D> {
    ghost use Rattle.nt_mark.specs.Rule as rule;

    ghost then = { λ s m n m'. rule.Looks D.cpu D.class m n m' };
}

/// A fetch_add of a lane's word.
pub struct Notes<D> {
    of: PhantomData<D>,
}

impl<D: Noting> Play<u8, View> for Notes<D> {
    ghost use Rattle.nt_mark.specs.Rule as rule;

    ghost then = { λ s m n m'. rule.Notes D.note m n m' };
}

/// A load that changes nothing of the seat.
pub struct Compares;

impl Play<u8, View> for Compares {
    ghost use Rattle.nt_mark.specs.Rule as rule;

    ghost then = { λ s m n m'. rule.Compares m m' };
}

/// A new seat is told all that this one knows.
pub struct Tells;

impl Split<View> for Tells {
    ghost use Rattle.std.specs.Prelude.{[]};
    ghost use Rattle.nt_mark.specs.Views.{telling};

    ghost left = { λ v. v };

    ghost right = { λ v. telling v 0 [] };
}

/// A new seat gets one of this one's parts.
pub struct OnePart;

impl Split<View> for OnePart {
    ghost use Rattle.std.specs.Prelude.{[], ◌-◌};
    ghost use Rattle.nt_mark.specs.Views.{telling, keeping};

    ghost left = { λ v. keeping v (v.parts - 1) v.kept };

    ghost right = { λ v. telling v 1 [] };
}

/// A new seat gets the lane that this one keeps first.
pub struct OneLane;

impl Split<View> for OneLane {
    ghost use Rattle.nt_mark.specs.Views.{telling, keeping, first_kept, other_kept};

    ghost left = { λ v. keeping v v.parts (other_kept v.kept) };

    ghost right = { λ v. telling v 0 (first_kept v.kept) };
}

/// A seat takes over all that another has and knows.
pub struct Meets;

impl Join<View> for Meets {
    ghost use Rattle.nt_mark.specs.Views.{both, spent};

    ghost both = { both };

    ghost spent = { spent };
}
