//! Reading all expectations of a text.
ghost use Rattle.std.specs.Prelude.{◌≡◌, ◌≤◌, ◌+◌, true, length, IfOk, List, Ok};
ghost use Rattle.nt_text.specs.declared.lines.TheConstants.{INPUT_LIMIT};
ghost use Rattle.nt_script.specs.Sound.{IsSound};
ghost use Rattle.nt_expect.specs.declared.expectations.Expectation.{Expectation};
ghost use Rattle.nt_expect.specs.Expectations.{IsTextOf, expectations_fit};
ghost use Rattle.nt_expect.specs.Gives.{GivesRead};
ghost use Rattle.nt_expect.specs.Reading.{reading};

use crate::expectations::Expectation;
use crate::lines::ExpectWalk;
use crate::refusals::{ExpectRefusal, ExpectStop};
use nt_event::Items;
use nt_script::Input;
use nt_text::Lines;
use std::alloc::Global;

/// Expectations in the order of their lines.
pub type Expectations = Items<Expectation>;

/// What the lines of a text say, of which the first has this number.
fn read_lines(
    alloc: Global,
    input: &Input,
    bytes: &[u8],
    first_line: u32,
) -> Result<Expectations, ExpectRefusal>
    requires bytes { length bytes.now ≤ INPUT_LIMIT }
    requires line { (1 ≤ first_line) × (first_line ≤ INPUT_LIMIT + 1) }
    ensures { GivesRead result (reading input.now first_line bytes.now) }
{
    let mut walk = ExpectWalk::new(alloc);
    let mut lines = Lines::new(bytes);
    let mut at = first_line;
    while let Some(line) = lines.next() {
        match walk.line(input, &line) {
            Ok(()) => {}
            Err(ExpectStop::NoMemory) => return Err(ExpectRefusal::NoMemory),
            Err(ExpectStop::Bad(kind)) => return Err(ExpectRefusal::Bad { line: at, kind }),
        }
        at += 1;
    }
    walk.finish(at)
}

/// The expectations whose text the bytes are, for the script of an input, or the least bad line and
/// what is wrong with it.
///
/// `first_line` is the number of the first line of the bytes, which stand behind a script. The
/// first test that a line does not pass refuses it: NotAscii, NoEnd; a line behind `done` is
/// ExtraField; UnknownWord where the first field is no word of this place; then each field from
/// left to right, without a count beforehand: MissingField where none is left, UnknownWord where
/// another word has to stand, BadNumber, and of a name BadName, UnknownName and WrongKind. A reply
/// that the command never gives is WrongKind too. A field behind these is ExtraField, and the 65th
/// expectation is TooMany. Where no line is bad and none is `done`, it is NoEnd at the line behind
/// the last; so empty input is NoEnd at the first line (profile). `NoMemory` may come at any call.
pub fn read_expectations(
    alloc: Global,
    input: &Input,
    bytes: &[u8],
    first_line: u32,
) -> Result<Expectations, ExpectRefusal>
    requires sound { IsSound input.now }
    requires bytes { length bytes.now ≤ INPUT_LIMIT }
    requires line { (1 ≤ first_line) × (first_line ≤ INPUT_LIMIT + 1) }

    // What is answered are expectations for the input's script, and the bytes are their text.
    ensures found { IfOk result (IsTextOf bytes.now input.now) }

    // They name things of the script, as `print_expectations` wants it.
    ensures fit { IfOk result (λ es. expectations_fit input.now.script es ≡ true) }

    // The expectations of a text are answered, and no others and no bad line.
    ensures only { (es : List Expectation) → IsTextOf bytes.now input.now es →
        GivesRead result (Ok es) }

    // Which line is refused, and why.
    ensures exact { GivesRead result (reading input.now first_line bytes.now) }
{
    read_lines(alloc, input, bytes, first_line)
}
