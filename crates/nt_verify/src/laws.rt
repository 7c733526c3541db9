//! Laws over runs: what is expected of a script is what its runs do. Each function's contract is a
//! law; the functions do nothing.
ghost use Rattle.nt_verify.specs.Laws.{CallsAreExpected, CleanScriptsRefuseNothing};
ghost use Rattle.nt_verify.specs.Laws.{OrderedScriptsSpinNowhere};

/// In every run of every script, a call at a place of a site is refused exactly where this is
/// expected there, by the refusal that is expected, and at the level that is expected. So it
/// depends on the place alone, and not on what interrupted the routine or spun before it.
pub fn calls_are_refused_as_expected()
    ensures { CallsAreExpected }
{}

/// Where nothing is found in a script, no run of it has a refused command.
pub fn scripts_without_findings_are_clean()
    ensures { CleanScriptsRefuseNothing }
{}

/// Where a script acquires its locks in rising order, no processor spins in a settled run in which
/// none is cut.
pub fn ordered_scripts_spin_nowhere()
    ensures { OrderedScriptsSpinNowhere }
{}
