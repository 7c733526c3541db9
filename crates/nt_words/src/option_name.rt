//! The options of the command line.
ghost use Rattle.std.specs.Prelude.{◌≡◌};
ghost use Rattle.nt_words.specs.Pieces.{option_text, dashed, dashed_equals};

/// An option of the command line.
#[derive(Clone, Copy, PartialEq, Eq, Debug)]
pub enum OptionName {
    /// `--turns`: the turn limit of each processor, 1 to 20,000.
    Turns,
    /// `--seed`: the number that a load is made from, 0 to 4,294,967,295.
    Seed,
    /// `--goal`: the name of the DPC or APC that a shortened schedule has to deliver.
    Goal,
    /// `--workers`: how many workers an audit has, 1 to 16.
    Workers,
}

impl OptionName {
    /// The option without its hyphens.
    pub fn text(self) -> &'static str
        ensures { result.now ≡ option_text self }
    {
        match self {
            OptionName::Turns => "turns",
            OptionName::Seed => "seed",
            OptionName::Goal => "goal",
            OptionName::Workers => "workers",
        }
    }

    /// The option as a word of its own, in front of its value.
    pub(crate) fn dashed(self) -> &'static str
        ensures { result.now ≡ dashed self }
    {
        match self {
            OptionName::Turns => "--turns",
            OptionName::Seed => "--seed",
            OptionName::Goal => "--goal",
            OptionName::Workers => "--workers",
        }
    }

    /// What a word begins with that has the option and its value.
    pub(crate) fn dashed_equals(self) -> &'static str
        ensures { result.now ≡ dashed_equals self }
    {
        match self {
            OptionName::Turns => "--turns=",
            OptionName::Seed => "--seed=",
            OptionName::Goal => "--goal=",
            OptionName::Workers => "--workers=",
        }
    }
}
