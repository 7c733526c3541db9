//! Pictures and lines of four runs. The digests are of pictures that were parsed as XML, rendered
//! and looked at; the lines were compared with the reports by hand.
//!
//! A function owns at most one value that is dropped, and ends once where it does.
ghost use Rattle.std.specs.Prelude.{◌≡◌, IfOk, true};
ghost use Rattle.nt_event.specs.Fitting.{events_fit};
ghost use Rattle.nt_script.specs.Sound.{IsSound};

mod runs;

use nt_draw::{Span, draw, draw_text};
use nt_history::History;
use nt_report::read_report;
use nt_script::{Input, ScriptRefusal, read};
use nt_text::INPUT_LIMIT;
use sha2::{Digest, Sha256};
use std::alloc::Global;
use std::test::Fail;

/// Whether a picture is asked for, or lines.
#[derive(Clone, Copy)]
enum Form {
    Picture,
    Lines,
}

/// What is asked for: a form and a span; None is all of the run.
#[derive(Clone, Copy)]
struct Wish {
    form: Form,
    span: Option<Span>,
}

/// The lines of the whole request.
const REQUEST_LINES: &str = "\
    \x20      p0                                            p1\n\
    \x20    0 rest\n\
    \x20    1                                               > switch app\n\
    \x20    2                                               | settimer limit 100 0 -> no\n\
    \x20    3                                               | interrupt 0 5\n\
    \x20    4 look 5=4                                      |\n\
    \x20    5                                               | wait kernel plain -> blocked\n\
    \x20    6 > DEVICE 5 int 5 of 3\n\
    \x20    7 |                                             rest\n\
    \x20    8 | queue done -> yes\n\
    \x20    9 < end 6\n\
    \x20   10 > DISPATCH dpc done of 8\n\
    \x20   11 | canceltimer limit -> yes\n\
    \x20   12 | apc complete -> yes\n\
    \x20   13 |                                             look 1=13 2=13\n\
    \x20   14 < end 10\n\
    \x20   15                                               clean 2\n\
    \x20   16 clean 2\n\
    \x20   17                                               > switch app status 100\n\
    \x20   18 rest                                          |\n\
    \x20   19                                               | > APC special complete of 12\n\
    \x20   20                                               | | release app -> no\n\
    \x20   21                                               | < end 19\n\
    \x20   22                                               | clean 1\n\
    \x20   23                                               | rewait 1 -> status 0\n\
    \x20   24                                               | note 1\n\
    \x20   25                                               | end 1\n\
    \x20   26                                               < gone app\n\
    \x20   27                                               rest\n";

/// Those of some events of the run with a spin lock.
const SPINNING_LINES: &str = "\
    \x20      p0                                            p1\n\
    \x20    5 |                                             : look 5=5\n\
    \x20    6 | note 1                                      :\n\
    \x20    7 |                                             : > DEVICE 5 int 5 of 4\n\
    \x20    8 | note 1                                      : |\n\
    \x20    9 |                                             : | queue d -> yes\n\
    \x20   10 | note 1                                      : |\n\
    \x20   11 |                                             : < end 7\n\
    \x20   12 | unlock k (PASSIVE)                          :\n";

const PICTURE: Wish = Wish {
    form: Form::Picture,
    span: None,
};

const LINES: Wish = Wish {
    form: Form::Lines,
    span: None,
};

fn draw_history(
    alloc: Global,
    input: &Input,
    history: &History,
    wish: Wish,
) -> Result<Vec<u8>, ScriptRefusal>
    requires sound { IsSound input.now }
    requires fit { events_fit input.now.script history.now.events ≡ true }
{
    let span = match wish.span {
        Some(span) => span,
        None => Span::whole(history),
    };
    let drawn = match wish.form {
        Form::Picture => draw(alloc, input, history, span),
        Form::Lines => draw_text(alloc, input, history, span),
    };
    match drawn {
        Ok(bytes) => Ok(bytes),
        Err(_) => Err(ScriptRefusal::NoMemory),
    }
}

fn draw_input(
    alloc: Global,
    input: &Input,
    report: &str,
    wish: Wish,
) -> Result<Vec<u8>, ScriptRefusal>
    requires { IsSound input.now }
{
    if report.len() > INPUT_LIMIT {
        return Err(ScriptRefusal::NoMemory);
    }
    match read_report(alloc, input, report.as_bytes(), 1) {
        Ok(history) => draw_history(alloc, input, &history, wish),
        Err(refusal) => Err(refusal),
    }
}

/// What is drawn of a report of a script.
fn drawn(alloc: Global, script: &str, report: &str, wish: Wish) -> Result<Vec<u8>, ScriptRefusal> {
    if script.len() > INPUT_LIMIT {
        return Err(ScriptRefusal::NoMemory);
    }
    match read(alloc, script.as_bytes()) {
        Ok(input) => {
            let drawn = draw_input(alloc, &input, report, wish);
            drop(input);
            drawn
        }
        Err(refusal) => Err(refusal),
    }
}

/// Whether the picture of a run has this SHA-256 digest.
fn is_picture(
    alloc: Global,
    script: &str,
    report: &str,
    digest: [u8; 32],
) -> Result<bool, ScriptRefusal> {
    match drawn(alloc, script, report, PICTURE) {
        Ok(picture) => Ok(Sha256::digest(picture.as_slice()) == digest),
        Err(refusal) => Err(refusal),
    }
}

#[test]
fn two_dpcs_go_to_the_other_processor(rt: HostRuntime) -> Result<(), Fail> {
    let digest = [
        0x7d, 0x29, 0xf5, 0xae, 0x08, 0x87, 0x76, 0x00, 0xe7, 0x80, 0x47, 0xc7, 0x69, 0x81, 0xf2,
        0x90, 0xa6, 0xa0, 0xfc, 0xcb, 0x64, 0xde, 0xc1, 0x2a, 0x49, 0x58, 0x0a, 0x12, 0xb3, 0xe4,
        0x0f, 0xc7,
    ];
    assert!(rt;
        is_picture(
            rt.alloc(),
            runs::OTHER_PROCESSOR,
            runs::OTHER_PROCESSOR_REPORT,
            digest
        )?
    );
    Ok(())
}

#[test]
fn a_thread_blocks_and_an_apc_waits(rt: HostRuntime) -> Result<(), Fail> {
    let digest = [
        0x56, 0xc9, 0x48, 0x93, 0xf9, 0xe7, 0x85, 0x9c, 0x3b, 0x14, 0x6e, 0xed, 0x63, 0x64, 0xd8,
        0x87, 0xb4, 0xf9, 0x83, 0x18, 0x70, 0xb9, 0x31, 0xd3, 0xf4, 0xda, 0x3d, 0x30, 0x24, 0xe8,
        0x2b, 0x27,
    ];
    assert!(rt;
        is_picture(
            rt.alloc(),
            runs::GUARDED_HANG,
            runs::GUARDED_HANG_REPORT,
            digest
        )?
    );
    Ok(())
}

#[test]
fn a_request_is_a_picture(rt: HostRuntime) -> Result<(), Fail> {
    let digest = [
        0xf2, 0x06, 0x7b, 0xf6, 0x4c, 0x78, 0x2b, 0x07, 0x7b, 0xc7, 0x04, 0x17, 0x04, 0x70, 0xed,
        0xe7, 0x86, 0x7b, 0x1e, 0xdd, 0xda, 0xe7, 0x1b, 0x2a, 0xb9, 0x87, 0xf7, 0x1c, 0xa7, 0x65,
        0xdc, 0xe5,
    ];
    assert!(rt;
        is_picture(
            rt.alloc(),
            runs::WHOLE_REQUEST,
            runs::WHOLE_REQUEST_REPORT,
            digest
        )?
    );
    Ok(())
}

#[test]
fn an_interrupt_stands_in_front_of_a_frame_that_spins(rt: HostRuntime) -> Result<(), Fail> {
    let digest = [
        0x98, 0x84, 0x22, 0x13, 0x16, 0xc6, 0xad, 0x60, 0x67, 0x75, 0xbe, 0x86, 0x10, 0xd7, 0x92,
        0xfa, 0x98, 0x89, 0x70, 0xe0, 0x3f, 0x10, 0x3e, 0x61, 0xc9, 0xb1, 0xa1, 0xc2, 0x65, 0x62,
        0xea, 0x97,
    ];
    assert!(rt;
        is_picture(
            rt.alloc(),
            runs::WHILE_SPINNING,
            runs::WHILE_SPINNING_REPORT,
            digest
        )?
    );
    Ok(())
}

/// Whether what is drawn of a run is this.
fn is_drawn(
    alloc: Global,
    script: &str,
    report: &str,
    wish: Wish,
    wanted: &str,
) -> Result<bool, ScriptRefusal> {
    match drawn(alloc, script, report, wish) {
        Ok(text) => Ok(text.as_slice() == wanted.as_bytes()),
        Err(refusal) => Err(refusal),
    }
}

#[test]
fn a_request_is_lines(rt: HostRuntime) -> Result<(), Fail> {
    let (script, report) = (runs::WHOLE_REQUEST, runs::WHOLE_REQUEST_REPORT);
    assert!(rt; is_drawn(rt.alloc(), script, report, LINES, REQUEST_LINES)?);
    Ok(())
}

#[test]
fn a_span_is_drawn_alone(rt: HostRuntime) -> Result<(), Fail> {
    let wish = Wish {
        form: Form::Lines,
        span: Some(Span { from: 5, to: 12 }),
    };
    let (script, report) = (runs::WHILE_SPINNING, runs::WHILE_SPINNING_REPORT);
    assert!(rt; is_drawn(rt.alloc(), script, report, wish, SPINNING_LINES)?);
    Ok(())
}

/// Whether these texts stand in a picture.
fn has_each(picture: &[u8], texts: &[&str]) -> bool {
    match str::from_utf8(picture) {
        Ok(picture) => texts.iter().all(|text| picture.contains(*text)),
        Err(_) => false,
    }
}

/// Whether these texts stand in what is drawn of a run.
fn drawn_has(
    alloc: Global,
    script: &str,
    report: &str,
    wish: Wish,
    texts: &[&str],
) -> Result<bool, ScriptRefusal> {
    match drawn(alloc, script, report, wish) {
        Ok(picture) => Ok(has_each(picture.as_slice(), texts)),
        Err(refusal) => Err(refusal),
    }
}

#[test]
fn boxes_are_frames(rt: HostRuntime) -> Result<(), Fail> {
    let (script, report) = (runs::WHOLE_REQUEST, runs::WHOLE_REQUEST_REPORT);
    let titles = [
        "<title>thread app: frame 1, events 1 to 4, PASSIVE 0</title>",
        "<title>interrupt int 5: frame 6, events 6 to 8, DEVICE 5</title>",
        "<title>DPC done: frame 10, events 10 to 13, DISPATCH 2</title>",
        "<title>thread app: frame 1, events 17 to 25, PASSIVE 0</title>",
        "<title>APC complete: frame 19, events 19 to 20, APC 1</title>",
        ">canceltimer limit -&gt; yes</text>",
        ">look 1=13 2=13</text>",
    ];
    assert!(rt; drawn_has(rt.alloc(), script, report, PICTURE, titles.as_slice())?);
    Ok(())
}
