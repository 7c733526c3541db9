//! What holds after every run of calls.
ghost use Rattle.nt_apc.specs.Laws.{FirstsAreLeast};

/// After every run of calls whose inserts have rising numbers, the first APC of a kind is the
/// pending one of least number, and there is none exactly where none of the kind is pending. An
/// insert is pending where no later call took it out.
pub fn firsts_are_least()
    ensures { FirstsAreLeast }
{}
