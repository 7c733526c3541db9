//! The cases of the table.
ghost use Rattle.std.specs.Prelude.{◌≤◌, IfSome};
ghost use Rattle.nt_event.specs.declared.limits.TheConstants.{TURNS};

use nt_event::limits::{TURNS, USUAL_TURNS};

/// What is done with a script alone.
#[derive(Clone, Copy)]
pub(crate) enum ScriptForm {
    /// It is run by the robin rule.
    Run,
    /// The first processor makes its first event by itself.
    Step,
    /// It is run by the robin rule, and its events are written field by field.
    Events,
    /// The history of its run is changed and checked.
    Change,
}

/// What is done with a script and a file.
#[derive(Clone, Copy)]
pub(crate) enum FileForm {
    /// The turns of a report are taken.
    Replay,
    /// The history of a report is checked.
    Check,
    /// The turns of a schedule are taken.
    Schedule,
    /// A machine takes the turns of a schedule one by one, whether they are the robin rule's or
    /// not.
    Take,
}

#[derive(Clone, Copy)]
pub(crate) enum Form {
    Script(ScriptForm),
    File(FileForm),
}

/// A case of the table.
#[derive(Drop)]
pub(crate) struct Case<'a> {
    pub(crate) form: Form,
    /// How many events each processor may make in a run by the robin rule.
    pub(crate) limit: u32,
    /// The name of the script.
    pub(crate) script: &'a str,
    /// The name of a file, or the words of a change.
    pub(crate) rest: &'a str,
    ghost some: { 1 ≤ limit },
    ghost few: { limit ≤ TURNS },
}

fn form_of(word: &str) -> Option<Form> {
    match word {
        "run" => Some(Form::Script(ScriptForm::Run)),
        "step" => Some(Form::Script(ScriptForm::Step)),
        "events" => Some(Form::Script(ScriptForm::Events)),
        "change" => Some(Form::Script(ScriptForm::Change)),
        "replay" => Some(Form::File(FileForm::Replay)),
        "check" => Some(Form::File(FileForm::Check)),
        "schedule" => Some(Form::File(FileForm::Schedule)),
        "take" => Some(Form::File(FileForm::Take)),
        _ => None,
    }
}

fn limit_of(word: &str) -> Option<u32>
    ensures { IfSome result (λ n. (1 ≤ n) × (n ≤ TURNS)) }
{
    let limit = word.parse::<u32>().ok()?;
    if limit < 1 || limit > TURNS {
        return None;
    }
    Some(limit)
}

/// A case by these words: the name of the script, and of the file if that is another one, or the
/// words of a change.
fn case_by<'a>(form: Form, limit: u32, words: &'a str) -> Case<'a>
    requires some { 1 ≤ limit }
    requires few { limit ≤ TURNS }
{
    let (script, rest) = words.split_once(' ').unwrap_or((words, words));
    Case {
        form,
        limit,
        script,
        rest,
    }
}

/// What a line of the table says: the word of a form, the limit if it is not the usual one, and the
/// names.
pub(crate) fn case_of(line: &str) -> Option<Case<'_>> {
    let (word, words) = line.split_once(' ')?;
    let form = form_of(word)?;
    let (first, others) = words.split_once(' ').unwrap_or(("", words));
    match limit_of(first) {
        Some(limit) => Some(case_by(form, limit, others)),
        None => Some(case_by(form, USUAL_TURNS, words)),
    }
}
