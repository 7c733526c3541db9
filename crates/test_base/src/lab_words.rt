//! Command lines, and what they ask for.
use nt_ask::Form;
use nt_lab_words::{Call, How, Order, Task, ThingKind, Work, call_of, file_of};
use std::alloc::{AllocError, Global};
use std::test::Fail;

/// The words as the program gets them.
fn owned(alloc: Global, words: &[&str]) -> Result<Vec<String>, AllocError> {
    let mut all = Vec::new(alloc);
    for word in words {
        all.push(String::from_str(alloc, word)?)?;
    }
    Ok(all)
}

/// Whether the words ask for this, with or without a file.
fn asks(alloc: Global, words: &[&str], work: Work, has_file: bool) -> Result<bool, AllocError> {
    let given = owned(alloc, words)?;
    let task = Task::Do(work);
    Ok(call_of(given.as_slice()) == Some(Call { task, has_file }))
}

/// Whether the words ask for nothing.
fn asks_nothing(alloc: Global, words: &[&str]) -> Result<bool, AllocError> {
    let given = owned(alloc, words)?;
    Ok(call_of(given.as_slice()).is_none())
}

#[test]
fn questions_may_name_a_file(rt: HostRuntime) -> Result<(), Fail> {
    let alloc = rt.alloc();
    let ask = Work::Ask(Form::Ask { states: 1_000_000 });
    assert!(rt; asks(alloc, &["ask"], ask, false)?);
    assert!(rt; asks(alloc, &["ask", "a.script"], ask, true)?);
    let witness = Work::Ask(Form::Witness {
        number: 2,
        states: 5_000,
    });
    assert!(rt;
        asks(
            alloc,
            &["witness", "2", "--states=5000", "2"],
            witness,
            true
        )?
    );
    assert!(rt; asks_nothing(alloc, &["ask", "--states"])?);
    assert!(rt; asks_nothing(alloc, &["ask", "a", "b"])?);
    let given = owned(alloc, &["tidy", "drivers/pump"])?;
    assert!(rt; file_of(given.as_slice()) == Some("drivers/pump"));
    Ok(())
}

#[test]
fn runs_have_options(rt: HostRuntime) -> Result<(), Fail> {
    let alloc = rt.alloc();
    let how = How {
        order: Order::Random(7),
        turns: Some(20),
        goes_on: false,
    };
    let run = Work::Run {
        how,
        as_schedule: true,
    };
    let words = [
        "run",
        "--schedule",
        "--seed",
        "7",
        "--turns",
        "20",
        "--order",
        "random",
    ];
    assert!(rt; asks(alloc, &words, run, false)?);
    assert!(rt; asks_nothing(alloc, &["run", "--seed", "7"])?);
    assert!(rt; asks_nothing(alloc, &["run", "--turns", "0"])?);
    assert!(rt; asks_nothing(alloc, &["run", "--schedule", "--schedule"])?);
    let picture = Work::Draw {
        from: Some(3),
        to: Some(9),
        as_text: true,
    };
    let words = ["draw", "--to", "9", "--text", "--from", "3", "a"];
    assert!(rt; asks(alloc, &words, picture, true)?);
    assert!(rt; asks_nothing(alloc, &["draw", "--seed", "1"])?);
    Ok(())
}

#[test]
fn an_option_may_be_one_word(rt: HostRuntime) -> Result<(), Fail> {
    let alloc = rt.alloc();
    let how = How {
        order: Order::Random(7),
        turns: Some(20),
        goes_on: false,
    };
    let run = Work::Run {
        how,
        as_schedule: false,
    };
    let words = ["run", "--turns=20", "--seed", "7", "--order=random", "a"];
    assert!(rt; asks(alloc, &words, run, true)?);
    assert!(rt; asks_nothing(alloc, &["run", "--turns=20", "--turns", "20"])?);
    assert!(rt; asks_nothing(alloc, &["run", "--turns="])?);
    let picture = Work::Draw {
        from: Some(3),
        to: Some(9),
        as_text: false,
    };
    assert!(rt; asks(alloc, &["draw", "--to=9", "--from=3"], picture, false)?);
    assert!(rt; asks_nothing(alloc, &["draw", "--text=9"])?);
    Ok(())
}

#[test]
fn a_run_goes_on_by_the_robin_rule(rt: HostRuntime) -> Result<(), Fail> {
    let alloc = rt.alloc();
    let how = How {
        order: Order::Robin,
        turns: None,
        goes_on: true,
    };
    let run = Work::Run {
        how,
        as_schedule: true,
    };
    assert!(rt; asks(alloc, &["run", "--go-on", "--schedule"], run, false)?);
    assert!(rt; asks_nothing(alloc, &["run", "--go-on", "--turns=7"])?);
    assert!(rt; asks_nothing(alloc, &["run", "--go-on", "--order", "robin"])?);
    Ok(())
}

#[test]
fn things_have_a_kind_and_a_name(rt: HostRuntime) -> Result<(), Fail> {
    let alloc = rt.alloc();
    let why = Work::Why {
        kind: ThingKind::Apc,
        after: Some(13),
    };
    assert!(rt; asks(alloc, &["why", "apc", "done", "13", "a"], why, true)?);
    let timer = Work::Why {
        kind: ThingKind::Timer,
        after: None,
    };
    assert!(rt; asks(alloc, &["why", "timer", "t"], timer, false)?);
    assert!(rt; asks_nothing(alloc, &["why", "lock", "k"])?);
    let int = Work::Why {
        kind: ThingKind::Interrupt,
        after: Some(12),
    };
    assert!(rt; asks(alloc, &["why", "int", "p1", "5", "12", "a"], int, true)?);
    assert!(rt; asks_nothing(alloc, &["why", "int", "p1", "a"])?);
    assert!(rt; asks_nothing(alloc, &["why", "dpc"])?);
    assert!(rt; asks(alloc, &["left"], Work::Left, false)?);
    let given = owned(alloc, &["--help"])?;
    let help = Call {
        task: Task::Help,
        has_file: false,
    };
    assert!(rt; call_of(given.as_slice()) == Some(help));
    Ok(())
}
