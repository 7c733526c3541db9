//! The fate of inserts in a run: what a delivery or a removal finds pending.

ghost use Rattle.nt_laws.specs.Fates.{ApcStandsAtMostOnce, ApcsHaveTheirThreads};
ghost use Rattle.nt_laws.specs.Fates.{AtMostOnePendingApc, AtMostOnePendingInsert};
ghost use Rattle.nt_laws.specs.Fates.{DeliveredInsertsWait, DeliveriesNamePendingInserts};
ghost use Rattle.nt_laws.specs.Fates.{NoInsertIsDeliveredTwice, QueuesAgreeWithObjects};
ghost use Rattle.nt_laws.specs.Fates.{RemovalsTell};
ghost use Rattle.nt_laws.specs.Objects.{InsertsOfEveryObject};

/// A delivery names a pending insert: each Begin of a DPC or an APC and each Flush of a run names
/// an insert of its object that was pending just before it, a DPC's in the queue of its processor,
/// an APC's at the thread that runs there.
pub fn a_delivery_names_a_pending_insert()
    ensures { DeliveriesNamePendingInserts }
{}

/// A removal answers yes exactly where there was one: an `unqueue` or `unapc` of a run that isn't
/// refused answers yes exactly where its object was inserted just before it, and else no.
pub fn a_removal_answers_yes_exactly_where_there_was_one()
    ensures { RemovalsTell }
{}

/// Queues and objects agree: in every run, for each DPC object of the script, the inserts of the
/// object that a queue holds are the one that stands there, with its number, or none.
pub fn queues_and_objects_agree()
    ensures { QueuesAgreeWithObjects }
{}

/// A DPC object has at most one pending insert: in every run, two pending inserts of an object of
/// the script are in the same queue and have the same number.
pub fn a_dpc_object_has_at_most_one_pending_insert()
    ensures { AtMostOnePendingInsert }
{}

/// What is delivered waits: the number that a Begin of a DPC or an APC or a Flush of a run names is
/// an earlier one, and no event before it began, removed or flushed the object's insert of that
/// number.
pub fn what_is_delivered_waits()
    ensures { DeliveredInsertsWait }
{}

/// No insert is delivered twice: no two Begins or Flushes of a run name the same insert of an
/// object.
pub fn no_insert_is_delivered_twice()
    ensures { NoInsertIsDeliveredTwice }
{}

/// An APC object stands at most once: in every run, an APC object whose thread the script has
/// stands at most once among the pending APCs of its thread.
pub fn an_apc_object_stands_at_most_once()
    ensures { ApcStandsAtMostOnce }
{}

/// An APC object has at most one pending insert: in every run, two pending inserts of such an
/// object are at the same thread and have the same number.
pub fn an_apc_object_has_at_most_one_pending_insert()
    ensures { AtMostOnePendingApc }
{}

/// APCs have their threads: in a script that fits, the thread of each of its APC objects is one of
/// its threads, so the laws over an APC object whose thread the script has hold of each of them.
pub fn apcs_have_their_threads()
    ensures { ApcsHaveTheirThreads }
{}

/// The laws over inserts hold of every object: in a run of a script that fits, a removal that isn't
/// refused answers yes exactly where its object was inserted just before it; and what is delivered
/// is an earlier insert that no event before it began, removed or flushed, and that no earlier
/// event delivered. Whether the script declares the object is no question there.
pub fn the_laws_over_inserts_hold_of_every_object()
    ensures { InsertsOfEveryObject }
{}
