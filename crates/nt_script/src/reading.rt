//! Reading a whole script.
ghost use Rattle.std.specs.Prelude.{◌≡◌, ◌≤◌, length, OnOk, IfOk, Ok};
ghost use Rattle.nt_text.specs.declared.lines.TheConstants.{INPUT_LIMIT};
ghost use Rattle.nt_text.specs.Lines.{lines, fields};
ghost use Rattle.nt_line.specs.NameLists.{no_names};
ghost use Rattle.nt_script.specs.Reading.{input_of, names_after, names_from, reading_by, start};
ghost use Rattle.nt_script.specs.Reading.{walk, reading};
ghost use Rattle.nt_script.specs.Gives.{GivesAll, GivesRead};
ghost use Rattle.nt_script.specs.Sound.{IsTextOf};
ghost use Rattle.nt_script.specs.declared.walk.Input.{Input};

use crate::versions::version_of;
use crate::walk::{Input, Stop, Walk};
use nt_line::{Names, keyword_of, may_declare};
use nt_text::{Fields, Lines, ScriptKind, name};
use std::alloc::{AllocError, Global};
use thiserror::Error;

/// Why a text is not taken.
#[derive(Clone, Copy, PartialEq, Eq, Debug, Error)]
pub enum ScriptRefusal {
    /// The least bad line, counted from 1, and what is wrong with it.
    #[error("line {line}: {}", .kind.name())]
    Bad { line: u32, kind: ScriptKind },
    /// No memory is left.
    #[error("no memory")]
    NoMemory,
}

/// Adds the name that a line declares, if any: its first keyword is of a line that declares, and
/// its second field is a name.
fn note_name(alloc: Global, version: u8, names: &mut Names, line: &[u8]) -> Result<(), AllocError>
    ensures { OnOk result (names.new ≡ names_after version names.old (fields line.now)) }
{
    if !may_declare(line) {
        return Ok(());
    }
    let mut row = Fields::new(line);
    if let Some(keyword) = keyword_of(version, row.take()) {
        if let Some(kind) = keyword.declares() {
            if let Some(name) = name(row.take()) {
                names.declare(alloc, kind, name)?;
            }
        }
    }
    Ok(())
}

/// Adds the names that the lines of a text declare.
fn note_names(alloc: Global, version: u8, names: &mut Names, bytes: &[u8]) -> Result<(), AllocError>
    ensures { OnOk result (names.new ≡ names_from version names.old (lines bytes.now)) }
{
    let mut lines = Lines::new(bytes);
    while let Some(line) = lines.next() {
        note_name(alloc, version, names, line.bytes)?;
    }
    Ok(())
}

/// The names that the lines of a text declare, wherever they stand.
fn names_of(alloc: Global, version: u8, bytes: &[u8]) -> Result<Names, AllocError>
    ensures { IfOk result (λ names. names ≡ names_from version no_names (lines bytes.now)) }
{
    let mut names = Names::new(alloc);
    match note_names(alloc, version, &mut names, bytes) {
        Ok(()) => Ok(names),
        Err(error) => {
            drop(names);
            Err(error)
        }
    }
}

impl Walk {
    /// Takes all lines of a text that may end behind them. `all` are the names that the lines
    /// declare.
    fn read_lines(&mut self, alloc: Global, all: &Names, bytes: &[u8]) -> Result<(), ScriptRefusal>
        requires { length bytes.now ≤ INPUT_LIMIT }
        ensures { GivesAll result (input_of self.new) (walk all.now self.old 1 (lines bytes.now)) }
    {
        let mut lines = Lines::new(bytes);
        let mut at: u32 = 1;
        while let Some(line) = lines.next_row() {
            match self.line(alloc, all, line) {
                Ok(()) => {}
                Err(Stop::NoMemory) => return Err(ScriptRefusal::NoMemory),
                Err(Stop::Bad(kind)) => return Err(ScriptRefusal::Bad { line: at, kind }),
            }
            at += 1;
        }
        self.may_end(at)
    }
}

/// The script of a text whose lines declare these names.
fn read_with(alloc: Global, version: u8, all: &Names, bytes: &[u8]) -> Result<Input, ScriptRefusal>
    requires { length bytes.now ≤ INPUT_LIMIT }
    ensures { GivesRead result (walk all.now (start version) 1 (lines bytes.now)) }
{
    let mut walk = Walk::new(alloc, version);
    match walk.read_lines(alloc, all, bytes) {
        Ok(()) => Ok(walk.into_input()),
        Err(refusal) => {
            drop(walk);
            Err(refusal)
        }
    }
}

/// Two walks along the lines of a text of this version: one for the names, one for all else.
fn read_by(alloc: Global, version: u8, bytes: &[u8]) -> Result<Input, ScriptRefusal>
    requires { length bytes.now ≤ INPUT_LIMIT }
    ensures { GivesRead result (reading_by version (lines bytes.now)) }
{
    match names_of(alloc, version, bytes) {
        Ok(all) => {
            let input = read_with(alloc, version, &all, bytes);
            drop(all);
            input
        }
        Err(_) => Err(ScriptRefusal::NoMemory),
    }
}

/// The version is read first, then the lines by it.
fn read_all(alloc: Global, bytes: &[u8]) -> Result<Input, ScriptRefusal>
    requires { length bytes.now ≤ INPUT_LIMIT }
    ensures { GivesRead result (reading bytes.now) }
{
    read_by(alloc, version_of(bytes), bytes)
}

/// The input whose text the bytes are, or the least bad line and what is wrong with it.
///
/// Ok exactly where the bytes are the text of a sound input, with that input; `Bad` else.
/// `NoMemory` may come at any call.
pub fn read(alloc: Global, bytes: &[u8]) -> Result<Input, ScriptRefusal>
    requires { length bytes.now ≤ INPUT_LIMIT }

    // What is answered is a sound input, and the bytes are its text.
    ensures found { IfOk result (IsTextOf bytes.now) }

    // The input of a text is answered, and no other input and no bad line.
    ensures only { (input : Input) → IsTextOf bytes.now input → GivesRead result (Ok input) }

    // Which line is refused, and why.
    ensures exact { GivesRead result (reading bytes.now) }
{
    read_all(alloc, bytes)
}
