//! What is refused before the words are parsed: words with a hyphen that are no option, and options
//! given twice.
ghost use Rattle.std.specs.Prelude.{◌≡◌, map, string_bytes, eqb};
ghost use Rattle.std.specs.List.{list_all, count_by};
ghost use Rattle.nt_words.specs.Tidy.{has_hyphen, is_option_word, is_option, is_known, is_tidy};
ghost use Rattle.nt_words.specs.Tidy.{times_given};

use crate::option_name::OptionName;

/// Whether a word begins with a hyphen.
fn has_hyphen(word: &[u8]) -> bool
    ensures { result ≡ has_hyphen word.now }
{
    match word {
        [b'-', ..] => true,
        _ => false,
    }
}

/// Whether a word is this option in one of its two spellings.
fn is_option_word(name: OptionName, word: &[u8]) -> bool
    ensures { result ≡ is_option_word name word.now }
{
    word == name.dashed().as_bytes() || word.starts_with(name.dashed_equals().as_bytes())
}

/// Whether a word is an option in one of its two spellings.
fn is_option(word: &[u8]) -> bool
    ensures { result ≡ is_option word.now }
{
    is_option_word(OptionName::Turns, word)
        || is_option_word(OptionName::Seed, word)
        || is_option_word(OptionName::Goal, word)
        || is_option_word(OptionName::Workers, word)
}

/// Whether a word begins with no hyphen, or is an option in one of its two spellings.
fn is_known(word: &[u8]) -> bool
    ensures { result ≡ is_known word.now }
{
    !has_hyphen(word) || is_option(word)
}

/// Whether each word begins with no hyphen, or is an option in one of its two spellings.
fn are_known(words: &[String]) -> bool
    ensures { result ≡ list_all is_known (map string_bytes words.now) }
{
    words.iter().all(|word| is_known(word.as_bytes()))
}

/// How often an option is given, in either spelling.
fn times_given(name: OptionName, words: &[String]) -> usize
    ensures { result ≡ times_given name (map string_bytes words.now) }
{
    words
        .iter()
        .filter(|word| is_option_word(name, word.as_bytes()))
        .count()
}

/// Whether each word with a hyphen is an option, and each option is given once at most.
pub(crate) fn is_tidy(words: &[String]) -> bool
    ensures { result ≡ is_tidy (map string_bytes words.now) }
{
    are_known(words)
        && times_given(OptionName::Turns, words) <= 1
        && times_given(OptionName::Seed, words) <= 1
        && times_given(OptionName::Goal, words) <= 1
        && times_given(OptionName::Workers, words) <= 1
}
