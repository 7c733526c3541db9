//! Laws of forms. Each function's contract is a law; the functions do nothing.
ghost use Rattle.nt_words.specs.Forms.{WordsHaveOneForm};
ghost use Rattle.nt_words.specs.Usage.{UsageNamesWhatIsBuilt};

/// The same words are no two forms.
pub fn words_have_one_form()
    ensures { WordsHaveOneForm }
{}

/// The usage line names exactly the commands that are built, with the options that they have.
#[tactic(auto, unfolding(crate::specs::Usage::usage_line))]
pub fn usage_names_what_is_built()
    ensures { UsageNamesWhatIsBuilt }
{}
