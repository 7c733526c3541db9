//! The words of the command line.
ghost use Rattle.std.specs.Prelude.{◌≡◌, ◌≤◌, ◌∷◌, [], IfSome, Some, map, option_map};
ghost use Rattle.std.specs.Prelude.{string_bytes};
ghost use Rattle.std.specs.Option.{option_or};
ghost use Rattle.nt_ask.specs.declared.words.Form.{Form};
ghost use Rattle.nt_ask.specs.Words.{IsForm, IsNumber, IsStates, IsWithin, apart, ask_by, ask_in};
ghost use Rattle.nt_ask.specs.Words.{behind_equals, form_of, joined, number_within, number_of};
ghost use Rattle.nt_ask.specs.Words.{states_of, witness_by, witness_in, witness_with};

use nt_text::{is_word, number};

/// The least number of states that may be given.
pub const LEAST_STATES: u32 = 1_000;

/// The greatest number of states that may be given.
pub const MOST_STATES: u32 = 50_000_000;

/// The number of states where none is given.
pub const USUAL_STATES: u32 = 1_000_000;

/// The greatest number of an expectation, of which a text has at most as many.
pub const MOST_NUMBER: u32 = 64;

/// What the words of a command line ask for.
#[derive(Clone, Copy, PartialEq, Eq, Debug)]
pub enum Form {
    /// `ask`: what is said of each expectation, with the greatest number of states.
    Ask { states: u32 },
    /// `witness`: a run that shows the expectation of this number, counted from 1, to fail, with
    /// the greatest number of states.
    Witness { number: u32, states: u32 },
}

/// The number that a value is, where it is written in decimal without leading zeros and lies within
/// the bounds.
fn number_within(least: u32, most: u32, value: &[u8]) -> Option<u32>
    ensures value { result ≡ number_within least most value.now }
    ensures within { IfSome result (λ n. (least ≤ n) × (n ≤ most)) }
{
    let given = number(value, most as u64)?;
    if least as u64 <= given {
        Some(given as u32)
    } else {
        None
    }
}

/// The number of states that is given by a value.
fn states_of(value: &[u8]) -> Option<u32>
    ensures value { result ≡ states_of value.now }
    ensures within { IfSome result IsStates }
{
    number_within(LEAST_STATES, MOST_STATES, value)
}

/// The number of an expectation that is given by a value.
fn number_of(value: &[u8]) -> Option<u32>
    ensures value { result ≡ number_of value.now }
    ensures within { IfSome result IsNumber }
{
    number_within(1, MOST_NUMBER, value)
}

/// What stands behind `--states=` in a word.
fn behind_equals(word: &[u8]) -> Option<&[u8]>
    ensures { option_map (λ value. value.now) result ≡ behind_equals word.now }
{
    word.strip_prefix(b"--states=")
}

/// The number that is given by the option and its value in one word.
fn joined(word: &[u8]) -> Option<u32>
    ensures value { result ≡ joined word.now }
    ensures within { IfSome result IsStates }
{
    states_of(behind_equals(word)?)
}

/// The number that is given by the option and its value in two words.
fn apart(word: &[u8], value: &[u8]) -> Option<u32>
    ensures value { result ≡ apart word.now value.now }
    ensures within { IfSome result IsStates }
{
    if is_word(word, b"--states") {
        states_of(value)
    } else {
        None
    }
}

/// `ask` by its word, with a number of states.
fn ask_by(word: &[u8], states: Option<u32>) -> Option<Form>
    requires { IfSome states IsStates }
    ensures value { result ≡ ask_by word.now states }
    ensures within { IfSome result IsWithin }
{
    if is_word(word, b"ask") {
        Some(Form::Ask { states: states? })
    } else {
        None
    }
}

/// `witness` with these numbers, where both are given.
fn witness_with(number: Option<u32>, states: Option<u32>) -> Option<Form>
    requires number { IfSome number IsNumber }
    requires states { IfSome states IsStates }
    ensures value { result ≡ witness_with number states }
    ensures within { IfSome result IsWithin }
{
    let number = number?;
    let states = states?;
    Some(Form::Witness { number, states })
}

/// `witness` by its word, with the number of an expectation by its value, and a number of states.
fn witness_by(word: &[u8], value: &[u8], states: Option<u32>) -> Option<Form>
    requires { IfSome states IsStates }
    ensures value { result ≡ witness_by word.now value.now states }
    ensures within { IfSome result IsWithin }
{
    if is_word(word, b"witness") {
        witness_with(number_of(value), states)
    } else {
        None
    }
}

/// The first of two forms that are words, if any is one.
fn either(one: Option<Form>, other: Option<Form>) -> Option<Form>
    requires one { IfSome one IsWithin }
    requires other { IfSome other IsWithin }
    ensures value { result ≡ option_or one other }
    ensures within { IfSome result IsWithin }
{
    match one {
        Some(form) => Some(form),
        None => other,
    }
}

/// `ask` in two words: the option stands in one of them.
fn ask_of_two(first: &[u8], second: &[u8]) -> Option<Form>
    ensures value { result ≡ ask_in (first.now ∷ second.now ∷ []) }
    ensures within { IfSome result IsWithin }
{
    let behind = ask_by(first, joined(second));
    let before = ask_by(second, joined(first));
    either(behind, before)
}

/// `ask` in three words: the option stands in two of them.
fn ask_of_three(first: &[u8], second: &[u8], third: &[u8]) -> Option<Form>
    ensures value { result ≡ ask_in (first.now ∷ second.now ∷ third.now ∷ []) }
    ensures within { IfSome result IsWithin }
{
    let behind = ask_by(first, apart(second, third));
    let before = ask_by(third, apart(first, second));
    either(behind, before)
}

/// `ask` in any number of words.
fn ask_in(words: &[String]) -> Option<Form>
    ensures value { result ≡ ask_in (map string_bytes words.now) }
    ensures within { IfSome result IsWithin }
{
    match words {
        [word] => ask_by(word.as_bytes(), Some(USUAL_STATES)),
        [first, second] => ask_of_two(first.as_bytes(), second.as_bytes()),
        [first, second, third] => {
            ask_of_three(first.as_bytes(), second.as_bytes(), third.as_bytes())
        }
        _ => None,
    }
}

/// `witness` in three words: the option stands in one of them.
fn witness_of_three(first: &[u8], second: &[u8], third: &[u8]) -> Option<Form>
    ensures value { result ≡ witness_in (first.now ∷ second.now ∷ third.now ∷ []) }
    ensures within { IfSome result IsWithin }
{
    let behind = witness_by(first, second, joined(third));
    let between = witness_by(first, third, joined(second));
    let before = witness_by(second, third, joined(first));
    either(behind, either(between, before))
}

/// `witness` in four words: the option stands in two of them.
fn witness_of_four(first: &[u8], second: &[u8], third: &[u8], fourth: &[u8]) -> Option<Form>
    ensures value { result ≡ witness_in (first.now ∷ second.now ∷ third.now ∷ fourth.now ∷ []) }
    ensures within { IfSome result IsWithin }
{
    let behind = witness_by(first, second, apart(third, fourth));
    let between = witness_by(first, fourth, apart(second, third));
    let before = witness_by(third, fourth, apart(first, second));
    either(behind, either(between, before))
}

/// `witness` in any number of words.
fn witness_in(words: &[String]) -> Option<Form>
    ensures value { result ≡ witness_in (map string_bytes words.now) }
    ensures within { IfSome result IsWithin }
{
    match words {
        [word, value] => witness_by(word.as_bytes(), value.as_bytes(), Some(USUAL_STATES)),
        [first, second, third] => {
            witness_of_three(first.as_bytes(), second.as_bytes(), third.as_bytes())
        }
        [first, second, third, fourth] => witness_of_four(
            first.as_bytes(),
            second.as_bytes(),
            third.as_bytes(),
            fourth.as_bytes(),
        ),
        _ => None,
    }
}

/// The form of any number of words.
fn of_words(words: &[String]) -> Option<Form>
    ensures value { result ≡ form_of (map string_bytes words.now) }
    ensures within { IfSome result IsWithin }
{
    either(ask_in(words), witness_in(words))
}

/// The form that the words behind the program's name are: `ask`, or `witness I`, alone or with
/// `--states N` or `--states=N` once, before the first of these words, behind the last, or between
/// the two. I and N are decimal without leading zeros. None where they are no form. Takes no
/// memory.
pub fn form_of(words: &[String]) -> Option<Form>
    ensures exact { result ≡ form_of (map string_bytes words.now) }

    // What is answered is a form in one of its spellings.
    ensures some { IfSome result (IsForm (map string_bytes words.now)) }

    // Words that are a form give this form, and are no other.
    ensures only { (form : Form) → IsForm (map string_bytes words.now) form → result ≡ Some form }

    // Its numbers are in their ranges.
    ensures within { IfSome result IsWithin }
{
    of_words(words)
}
