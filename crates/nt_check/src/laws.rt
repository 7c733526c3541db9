//! Laws of verdicts. Each function's contract is a law; the functions do nothing.
ghost use Rattle.nt_check.specs.Verdicts.{OneVerdict};

/// Each history has exactly one verdict.
pub fn one_verdict()
    ensures { OneVerdict }
{}
