//! Worked rows: each function's contract says what is found in a script that was worked out by
//! hand, and the prover computes it from the definitions. The functions do nothing.
ghost use Rattle.nt_verify.specs.Rows.{LowerBelowBase, PhasesBeginAnew, RaiseQueueLower};
ghost use Rattle.nt_verify.specs.Rows.{RefusedLevels, SpinRefusals, TwoOrders};

/// A raise below the level and a lower above it are refused.
pub fn refused_levels()
    ensures { RefusedLevels }
{}

/// A DPC doesn't lower below DISPATCH_LEVEL.
pub fn lower_below_base()
    ensures { LowerBelowBase }
{}

/// A script in which nothing is refused.
pub fn raise_queue_lower()
    ensures { RaiseQueueLower }
{}

/// Two threads that acquire two locks the other way round.
pub fn two_orders()
    ensures { TwoOrders }
{}

/// What a routine that holds a lock may not do.
pub fn spin_refusals()
    ensures { SpinRefusals }
{}

/// A normal routine begins anew, and a threaded DPC is an ordinary one where they are off.
pub fn phases_begin_anew()
    ensures { PhasesBeginAnew }
{}
