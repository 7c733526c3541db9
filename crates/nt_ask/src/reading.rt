//! What is asked in the bytes of an input: a script, and expectations behind it.
ghost use Rattle.std.specs.Prelude.{◌+◌, ◌≡◌, ◌≤◌, Err, IfOk, IsTrue, None, Ok, Result, Some};
ghost use Rattle.std.specs.Prelude.{length, true};
ghost use Rattle.nt_event.specs.Script.{fits};
ghost use Rattle.nt_expect.specs.Expectations.{expectations_fit};
ghost use Rattle.nt_script.specs.Sound.{IsSound};
ghost use Rattle.nt_text.specs.declared.lines.TheConstants.{INPUT_LIMIT};
ghost use Rattle.nt_ask.specs.declared.reading.AskRefusal.{AskRefusal};
ghost use Rattle.nt_ask.specs.declared.reading.Asked.{Asked};
ghost use Rattle.nt_ask.specs.Reading.{GivesRead, IsTextOf, asking, expectations_of, last_line};
ghost use Rattle.nt_ask.specs.Reading.{script_of, two_parts, with_expectations};

use nt_expect::{ExpectKind, ExpectRefusal, Expectations, read_expectations};
use nt_script::{Input, ScriptKind, ScriptRefusal, Split, read, split_at};
use nt_text::{INPUT_LIMIT, Lines};
use std::alloc::Global;

/// What is asked: whether a script has runs in which one of these expectations fails.
#[derive(Drop)]
pub struct Asked {
    /// The script, and the names of its things.
    pub input: Input,
    /// What is expected of its runs, in the order of the lines.
    pub expectations: Expectations,
}

/// Why an input is not taken. A line is counted from 1 in the whole input.
#[derive(Clone, Copy, PartialEq, Eq, Debug)]
pub enum AskRefusal {
    /// The least bad line of the script, and what is wrong with it.
    Script { line: u32, kind: ScriptKind },
    /// The least bad line behind the script, and what is wrong with it.
    Expect { line: u32, kind: ExpectKind },
    /// No memory is left.
    NoMemory,
}

/// The number of the line behind the last one.
fn last_line(bytes: &[u8]) -> u32
    requires { length bytes.now ≤ INPUT_LIMIT }
    ensures { result ≡ last_line bytes.now }
{
    let mut lines = Lines::new(bytes);
    let mut number = 1;
    while let Some(_) = lines.next() {
        number += 1;
    }
    number
}

/// The script that the bytes are.
fn read_script(alloc: Global, bytes: &[u8]) -> Result<Input, AskRefusal>
    requires { length bytes.now ≤ INPUT_LIMIT }
    ensures exact { GivesRead result (script_of bytes.now) }
    ensures sound { IfOk result IsSound }
{
    match read(alloc, bytes) {
        Ok(input) => Ok(input),
        Err(ScriptRefusal::Bad { line, kind }) => Err(AskRefusal::Script { line, kind }),
        Err(ScriptRefusal::NoMemory) => Err(AskRefusal::NoMemory),
    }
}

/// The expectations for an input that the bytes are, of which the first line has this number.
fn read_expected(
    alloc: Global,
    input: &Input,
    bytes: &[u8],
    line: u32,
) -> Result<Expectations, AskRefusal>
    requires sound { IsSound input.now }
    requires bytes { length bytes.now ≤ INPUT_LIMIT }
    requires line { (1 ≤ line) × (line ≤ INPUT_LIMIT + 1) }
    ensures exact { GivesRead result (expectations_of input.now line bytes.now) }
    ensures fit { IfOk result (λ es. expectations_fit input.now.script es ≡ true) }
{
    match read_expectations(alloc, input, bytes, line) {
        Ok(expectations) => Ok(expectations),
        Err(ExpectRefusal::Bad { line, kind }) => Err(AskRefusal::Expect { line, kind }),
        Err(ExpectRefusal::NoMemory) => Err(AskRefusal::NoMemory),
    }
}

/// An input with the expectations that stand behind it.
fn with_expectations(
    alloc: Global,
    input: Input,
    rest: &[u8],
    line: u32,
) -> Result<Asked, AskRefusal>
    requires sound { IsSound input }
    requires bytes { length rest.now ≤ INPUT_LIMIT }
    requires line { (1 ≤ line) × (line ≤ INPUT_LIMIT + 1) }
    ensures exact { GivesRead result (with_expectations input line rest.now) }
    ensures sound { IfOk result (λ a. IsSound a.input) }
    ensures fit { IfOk result (λ a. expectations_fit a.input.script a.expectations ≡ true) }
{
    match read_expected(alloc, &input, rest, line) {
        Ok(expectations) => Ok(Asked {
            input,
            expectations,
        }),
        Err(refusal) => {
            drop(input);
            Err(refusal)
        }
    }
}

/// A script, and the expectations behind it.
fn both_parts(alloc: Global, bytes: &[u8], split: Split) -> Result<Asked, AskRefusal>
    requires bytes { length bytes.now ≤ INPUT_LIMIT }
    requires at { split.at ≤ length bytes.now }
    requires line { (1 ≤ split.line) × (split.line ≤ INPUT_LIMIT + 1) }
    ensures exact { GivesRead result (two_parts (Some (split.at, split.line)) bytes.now) }
    ensures sound { IfOk result (λ a. IsSound a.input) }
    ensures fit { IfOk result (λ a. expectations_fit a.input.script a.expectations ≡ true) }
{
    let (script, rest) = bytes.split_at(split.at);
    let input = read_script(alloc, script)?;
    with_expectations(alloc, input, rest, split.line)
}

/// Why a script is refused behind which nothing is expected.
fn script_alone(alloc: Global, bytes: &[u8]) -> AskRefusal
    requires { length bytes.now ≤ INPUT_LIMIT }
    ensures { (r : Result Asked AskRefusal) → r ≡ Err result →
        GivesRead r (two_parts None bytes.now) }
{
    match read_script(alloc, bytes) {
        Ok(input) => {
            drop(input);
            AskRefusal::Script {
                line: last_line(bytes),
                kind: ScriptKind::NoEnd,
            }
        }
        Err(refusal) => refusal,
    }
}

/// What the bytes ask.
fn read_parts(alloc: Global, bytes: &[u8]) -> Result<Asked, AskRefusal>
    requires { length bytes.now ≤ INPUT_LIMIT }
    ensures exact { GivesRead result (asking bytes.now) }
    ensures sound { IfOk result (λ a. IsSound a.input) }
    ensures fit { IfOk result (λ a. expectations_fit a.input.script a.expectations ≡ true) }
{
    match split_at(bytes, "expect") {
        Some(split) => both_parts(alloc, bytes, split),
        None => Err(script_alone(alloc, bytes)),
    }
}

/// The script and the expectations whose texts the bytes are, one behind the other, or the least
/// bad line and what is wrong with it.
///
/// What begins with the first line whose first field is `expect` stands behind the script. The
/// script is tested first: a bad line of it is `Script`. Then a bad line behind it is `Expect`.
/// Where no line begins with `expect`, a script that is not refused is `Script` with NoEnd, at the
/// line behind the last (profile). `NoMemory` may come at any call.
pub fn read_asked(alloc: Global, bytes: &[u8]) -> Result<Asked, AskRefusal>
    requires { length bytes.now ≤ INPUT_LIMIT }

    // What is answered are a sound input and expectations for its script, and the bytes are their
    // texts.
    ensures found { IfOk result (IsTextOf bytes.now) }

    // What the bytes are the texts of is answered, and nothing else and no bad line.
    ensures only { (a : Asked) → IsTextOf bytes.now a → GivesRead result (Ok a) }

    // Which line is refused, and why.
    ensures exact { GivesRead result (asking bytes.now) }

    // What a search and `print_answer` want.
    ensures sound { IfOk result (λ a. IsSound a.input) }
    ensures fits { IfOk result (λ a. IsTrue (fits a.input.script)) }
    ensures fit { IfOk result (λ a. expectations_fit a.input.script a.expectations ≡ true) }
{
    read_parts(alloc, bytes)
}
