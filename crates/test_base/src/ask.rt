//! Each public call once, with texts that are worked by hand from the formats.
ghost use Rattle.std.specs.Prelude.{◌≡◌, ◌≤◌, All, IfOk, length, true};
ghost use Rattle.nt_event.specs.declared.scripts.Script.{Script};
ghost use Rattle.nt_expect.specs.Expectations.{expectations_fit};
ghost use Rattle.nt_script.specs.Sound.{IsSound};
ghost use Rattle.nt_text.specs.declared.lines.TheConstants.{INPUT_LIMIT};
ghost use Rattle.nt_ask.specs.Answers.{VerdictFits};

use nt_ask::{
    Answer, AskRefusal, Asked, Cut, Form, Status, Verdict, form_of, print_answer, read_asked,
    verdict_status,
};
use nt_expect::{ExpectKind, Watched};
use nt_text::{INPUT_LIMIT, ScriptKind, What10};
use std::alloc::{AllocError, Global};
use std::test::Fail;

/// A thread queues a DPC that notes 7, with three expectations behind.
const ASKED: &str = "\
    cpus 1\ndpc work later\nthread main 0 body\nroutine later\nnote 7\nexit\nroutine body\n\
    queue work\nexit\nexpect\nnever begin dpc work before note 1\nnever note 99 after note 1\n\
    always note 7\ndone\n";

/// Inputs that are refused, and why.
const REFUSED: [(&str, AskRefusal); 5] = [
    (
        "cpus 1\nexpect\nmaybe note 1\ndone\n",
        AskRefusal::Expect {
            line: 3,
            kind: ExpectKind::Line(ScriptKind::UnknownWord),
        },
    ),
    (
        "cpus 1\nexpect\n",
        AskRefusal::Expect {
            line: 3,
            kind: ExpectKind::Line(ScriptKind::NoEnd),
        },
    ),
    (
        "cpus 1\n",
        AskRefusal::Script {
            line: 2,
            kind: ScriptKind::NoEnd,
        },
    ),
    (
        "cpus 0\nexpect\nmaybe\n",
        AskRefusal::Script {
            line: 1,
            kind: ScriptKind::BadNumber,
        },
    ),
    (
        "cpus 9\nexpect\ndone\n",
        AskRefusal::Script {
            line: 1,
            kind: ScriptKind::TooMany(What10::Cpus),
        },
    ),
];

/// Words that are `ask`, and the number of states.
const ASKS: [(&[&str], u32); 5] = [
    (&["ask"], 1_000_000),
    (&["ask", "--states", "1000"], 1_000),
    (&["--states", "50000000", "ask"], 50_000_000),
    (&["ask", "--states=2500"], 2_500),
    (&["--states=2500", "ask"], 2_500),
];

/// Words that are `witness`, the number of the expectation and the number of states.
const WITNESSES: [(&[&str], u32, u32); 8] = [
    (&["witness", "1"], 1, 1_000_000),
    (&["witness", "64"], 64, 1_000_000),
    (&["--states", "1000", "witness", "2"], 2, 1_000),
    (&["witness", "--states", "1000", "2"], 2, 1_000),
    (&["witness", "2", "--states", "1000"], 2, 1_000),
    (&["--states=50000000", "witness", "10"], 10, 50_000_000),
    (&["witness", "--states=50000000", "10"], 10, 50_000_000),
    (&["witness", "10", "--states=50000000"], 10, 50_000_000),
];

/// Words that are no form.
const NO_FORMS: [&[&str]; 18] = [
    &[],
    &["ask", "--states", "999"],
    &["ask", "--states=50000001"],
    &["ask", "--states=01000"],
    &["ask", "--states"],
    &["--states=1000"],
    &["ask", "--states=1000", "--states=1000"],
    &["ask", "1"],
    &["witness"],
    &["witness", "0"],
    &["witness", "65"],
    &["witness", "01"],
    &["witness", "1000", "--states", "1"],
    &["witness", "--states=1000"],
    &["witness", "1", "--states"],
    &["1", "witness"],
    &["witness", "1", "1"],
    &["--states=1000", "witness", "1", "--states=1000"],
];

/// The form that the words are, if any.
fn form_by(alloc: Global, words: &[&str]) -> Result<Option<Form>, AllocError> {
    let mut given = Vec::new(alloc);
    for word in words {
        given.push(String::from_str(alloc, word)?)?;
    }
    Ok(form_of(given.as_slice()))
}

#[test]
fn words_are_forms(rt: HostRuntime) -> Result<(), Fail> {
    for (words, states) in &ASKS {
        let states = *states;
        assert!(rt; form_by(rt.alloc(), words)? == Some(Form::Ask { states }));
    }
    for (words, number, states) in &WITNESSES {
        let (number, states) = (*number, *states);
        assert!(rt; form_by(rt.alloc(), words)? == Some(Form::Witness { number, states }));
    }
    for words in &NO_FORMS {
        assert!(rt; form_by(rt.alloc(), words)? == None);
    }
    Ok(())
}

/// Why these bytes are refused. None where they are taken.
fn refusal_of(alloc: Global, bytes: &[u8]) -> Option<AskRefusal>
    requires { length bytes.now ≤ INPUT_LIMIT }
{
    read_asked(alloc, bytes).err()
}

#[test]
fn the_first_bad_line_is_refused(rt: HostRuntime) {
    for (text, refusal) in &REFUSED {
        assert!(rt; text.len() <= INPUT_LIMIT);
        assert!(rt; refusal_of(rt.alloc(), text.as_bytes()) == Some(*refusal));
    }
}

/// The text of an answer, nothing where its verdicts are not as many as the expectations.
fn printed(alloc: Global, asked: &Asked, answer: &Answer) -> Result<Vec<u8>, AllocError>
    requires sound { IsSound asked.now.input }
    requires fit { expectations_fit asked.now.input.script asked.now.expectations ≡ true }
    requires verdicts_fit { All (VerdictFits asked.now.input.script) answer.now.verdicts.items }
{
    let expectations = asked.expectations.as_slice();
    if answer.verdicts.len() != expectations.len() {
        return Ok(Vec::new(alloc));
    }
    print_answer(alloc, &asked.input, expectations, answer)
}

/// The text of an answer to what is asked in the bytes, nothing where they are refused.
fn answered(alloc: Global, bytes: &[u8], answer: &Answer) -> Result<Vec<u8>, AllocError>
    requires bytes { length bytes.now ≤ INPUT_LIMIT }
    requires verdicts_fit { (s : Script) → All (VerdictFits s) answer.now.verdicts.items }
{
    match read_asked(alloc, bytes) {
        Ok(asked) => {
            let text = printed(alloc, &asked, answer);
            drop(asked);
            text
        }
        Err(_) => Ok(Vec::new(alloc)),
    }
}

/// An answer with these verdicts.
fn answer_of(alloc: Global, cut: Option<Cut>, verdicts: &[Verdict]) -> Result<Answer, AllocError>
    ensures { IfOk result (λ answer. answer.verdicts.items ≡ verdicts.now) }
{
    Ok(Answer {
        states: 14,
        edges: 13,
        cut,
        verdicts: verdicts.to_vec(alloc)?,
    })
}

/// Whether an answer with these verdicts, which fit any script, has this number of a status and
/// this text.
fn is_answer(
    alloc: Global,
    cut: Option<Cut>,
    verdicts: &[Verdict],
    status: u8,
    text: &str,
) -> Result<bool, AllocError>
    requires { (s : Script) → All (VerdictFits s) verdicts.now }
{
    if ASKED.len() > INPUT_LIMIT {
        return Ok(false);
    }
    let answer = answer_of(alloc, cut, verdicts)?;
    let found = answered(alloc, ASKED.as_bytes(), &answer)?;
    Ok(verdict_status(&answer).number() == status && found.as_slice() == text.as_bytes())
}

#[test]
fn each_expectation_has_a_line(rt: HostRuntime) -> Result<(), Fail> {
    let verdicts = [
        Verdict::Holds,
        Verdict::HoldsWithout(Watched::Note(1)),
        Verdict::Holds,
    ];
    let text = "states 14 edges 13\n1 never begin dpc work before note 1: holds\n\
        2 never note 99 after note 1: holds, note 1 never comes\n3 always note 7: holds\n";
    assert!(rt; is_answer(rt.alloc(), None, &verdicts, 0, text)?);
    let verdicts = [Verdict::HoldsWithin(9), Verdict::Unknown, Verdict::Holds];
    let text = "states 14 edges 13 cut by states\n\
        1 never begin dpc work before note 1: holds within 9\n\
        2 never note 99 after note 1: unknown\n3 always note 7: holds\n";
    assert!(rt; is_answer(rt.alloc(), Some(Cut::States), &verdicts, 10, text)?);
    let verdicts = [Verdict::Unknown, Verdict::Holds, Verdict::FailsAt(4)];
    let text = "states 14 edges 13 cut by turns\n1 never begin dpc work before note 1: unknown\n\
        2 never note 99 after note 1: holds\n3 always note 7: fails at 4\n";
    assert!(rt; is_answer(rt.alloc(), Some(Cut::Turns), &verdicts, 9, text)?);
    Ok(())
}

#[test]
fn no_schedule_has_a_number(rt: HostRuntime) {
    assert_eq!(rt; Status::NoExpectation.number(), 9);
    assert_eq!(rt; Status::NoWitness.number(), 9);
    assert_eq!(rt; Status::TooManyTurns.number(), 11);
}
