//! Messages that are worked by hand.
ghost use Rattle.std.specs.Prelude.{◌≤◌, length};
ghost use Rattle.nt_text.specs.declared.lines.TheConstants.{INPUT_LIMIT};

use nt_expect::ExpectKind;
use nt_friendly::tidy;
use nt_people::{Fault, refusal_message};
use nt_text::{INPUT_LIMIT, ScriptKind, What10};
use std::alloc::{AllocError, Global};
use std::test::Fail;

/// A script as somebody may write it. The 12th line that has a field is the 14th.
const PUMP: &str = "# a pump\ncpus 1\nisr 0 DIRQL 5 pulse\ndpc work run\nthread main 0 \
 body\n\nroutine pulse\nexit\nroutine run\n\tnote 7\nexit\nroutine body\n  raise DISPATCH\n  \
 queue wrok        # the DPC of the pump\n  lower PASSIVE\nexit\n";

/// A text, the number of the refused line among those with a field, what the reader says of it, and
/// the message behind `standard input:`.
type Case = (&'static str, u32, Fault, &'static str);

/// What the reader of scripts may say.
const SCRIPTS: [Case; 24] = [
    (
        "cpus 1\ndpc wörk run",
        2,
        Fault::Script(ScriptKind::NotAscii),
        "2:5: a character that may not stand here\n    2 | dpc wörk run\n      |     ^^^^\nonly \
         letters, digits and signs of ASCII stand outside comments: write the name without \
         accents, and save the text as UTF-8\n",
    ),
    (
        "cpus 1\nroutine r\nqeue d\n",
        3,
        Fault::Script(ScriptKind::UnknownWord),
        "3:1: unknown word\n    3 | qeue d\n      | ^^^^\nno line of a script begins with this \
         word; words are in small letters; is \"queue\" meant?\n",
    ),
    (
        "cpus 1\nnote 1\n",
        2,
        Fault::Script(ScriptKind::UnknownWord),
        "2:1: unknown word\n    2 | note 1\n      | ^^^^\nthis word may not stand here: the parts \
         of a script are version, cpus, depth, threaded, isr, dpc, timer, thread, APCs, spinlock \
         and routines, in this order; commands stand between \"routine\" and \"exit\"\n",
    ),
    (
        "cpus 1\nspinlock k\n",
        2,
        Fault::Script(ScriptKind::UnknownWord),
        "2:1: unknown word\n    2 | spinlock k\n      | ^^^^^^^^\nthis word is of version 2: \
         write the line \"version 2\" first of all\n",
    ),
    (
        "cpus 1\nroutine r\n  wait kernal plain\n",
        3,
        Fault::Script(ScriptKind::UnknownWord),
        "3:8: unknown word\n    3 |   wait kernal plain\n      |        ^^^^^^\nwrite \"kernel\" \
         or \"user\"; is \"kernel\" meant?\n",
    ),
    (
        "cpus 1\nroutine r\nwait kernel  # how?\n",
        3,
        Fault::Script(ScriptKind::MissingField),
        "3:12: a field is missing\n    3 | wait kernel  # how?\n      |            ^\nwrite \
         \"plain\" or \"alertable\"\n",
    ),
    (
        "cpus 1\nroutine r\nnote 7 8 9\n",
        3,
        Fault::Script(ScriptKind::ExtraField),
        "3:8: a field too many\n    3 | note 7 8 9\n      |        ^\nnothing more may stand in \
         this line: a comment begins with #\n",
    ),
    (
        "cpus 1\nroutine r\nraise DIRQL 12\n",
        3,
        Fault::Script(ScriptKind::ExtraField),
        "3:13: a field too many\n    3 | raise DIRQL 12\n      |             ^^\nbehind DIRQL \
         stands the level of a device, a number from 3 to 11\n",
    ),
    (
        "cpus 1\nroutine r\nraise 16\n",
        3,
        Fault::Script(ScriptKind::BadNumber),
        "3:7: no number that may stand here\n    3 | raise 16\n      |       ^^\na level is 0 to \
         15, or PASSIVE, APC, DISPATCH, DIRQL N, SYNCH, CLOCK, IPI or HIGH\n",
    ),
    (
        "cpus 1\nroutine r\nraise DISPACH\n",
        3,
        Fault::Script(ScriptKind::BadNumber),
        "3:7: no number that may stand here\n    3 | raise DISPACH\n      |       ^^^^^^^\na \
         level is 0 to 15, or PASSIVE, APC, DISPATCH, DIRQL N, SYNCH, CLOCK, IPI or HIGH; is \
         \"DISPATCH\" meant?\n",
    ),
    (
        "cpus 1\nisr 1 DIRQL 5 r\nroutine r\nexit\n",
        2,
        Fault::Script(ScriptKind::BadNumber),
        "2:5: no number that may stand here\n    2 | isr 1 DIRQL 5 r\n      |     ^\nprocessors \
         are counted from 0: write a number below that of the line \"cpus\"\n",
    ),
    (
        "\u{feff}cpus 0\n",
        1,
        Fault::Script(ScriptKind::BadNumber),
        "1:7: no number that may stand here\n    1 |  cpus 0\n      |       ^\nwrite how many \
         processors there are, at least 1\n",
    ),
    (
        "cpus 1\ndpc Work run\n",
        2,
        Fault::Script(ScriptKind::BadName),
        "2:5: no name\n    2 | dpc Work run\n      |     ^^^^\na name has 1 to 16 of the signs a \
         to z, 0 to 9 and _\n",
    ),
    (
        "cpus 1\nthread main 0 b\nthread main 0 b\nroutine b\nexit\n",
        3,
        Fault::Script(ScriptKind::NameTwice),
        "3:8: declared twice\n    3 | thread main 0 b\n      |        ^^^^\nan earlier line \
         declares this name: all things of a script need names of their own\n",
    ),
    (
        "cpus 1\nisr 0 5 r\nisr 0 5 r\nroutine r\nexit\n",
        3,
        Fault::Script(ScriptKind::NameTwice),
        "3:1: declared twice\n    3 | isr 0 5 r\n      | ^^^\nan earlier line has this processor \
         and level: one routine serves each interrupt\n",
    ),
    (
        "cpus 1\nisr 0 DIRQL 5 rnu\ndpc rna run\nroutine run\nexit\n",
        2,
        Fault::Script(ScriptKind::UnknownName),
        "2:15: unknown name\n    2 | isr 0 DIRQL 5 rnu\n      |               ^^^\nno routine of \
         this name is declared; is `run` meant?\n",
    ),
    (
        "cpus 1\ndpc d gone\n",
        2,
        Fault::Script(ScriptKind::UnknownName),
        "2:7: unknown name\n    2 | dpc d gone\n      |       ^^^^\nno routine of this \
         name is declared\n",
    ),
    (
        "cpus 1\nthread main 0 main\n",
        2,
        Fault::Script(ScriptKind::WrongKind),
        "2:15: not of the kind that stands here\n    2 | thread main 0 main\n      |               \
         ^^^^\nhere stands the name of a routine, and this one is of another thing: a thread and \
         its routine need two names\n",
    ),
    (
        "",
        1,
        Fault::Script(ScriptKind::NoCpus),
        "1:1: the line cpus is missing\n    1 | \n      | ^\na script begins with \"cpus N\", \
         behind \"version 2\" where that stands\n",
    ),
    (
        "cpus 9",
        1,
        Fault::Script(ScriptKind::TooMany(What10::Cpus)),
        "1:6: too many processors\n    1 | cpus 9\n      |      ^\na script has at most 8 \
         processors, and 64 with \"version 2\" as its first line\n",
    ),
    (
        "cpus 1\n\ntimer t -\n",
        2,
        Fault::Script(ScriptKind::TooMany(What10::Timers)),
        "3:1: too many timers\n    3 | timer t -\n      | ^^^^^\na script has at most 64 timers\n",
    ),
    (
        "cpus 1\nroutine r\n# no more",
        3,
        Fault::Script(ScriptKind::NoEnd),
        "4:1: the text ends too early\n    4 | \n      | ^\na routine ends with the line \
         \"exit\"\n",
    ),
    (
        "cpus 1\nroutine r\nexit\n",
        4,
        Fault::Script(ScriptKind::NoEnd),
        "4:1: the text ends too early\n    4 | \n      | ^\nexpectations are missing: behind the \
         last routine they begin with the line \"expect\"\n",
    ),
    (
        "cpus 2\nroutine r\nnote `7\n",
        3,
        Fault::Script(ScriptKind::BadNumber),
        "3:6: no number that may stand here\n    3 | note `7\n      |      ^^\nwrite a decimal \
         number up to 4294967295, without sign or leading zeros\n",
    ),
];

/// What the readers of expectations and of schedules may say.
const OTHERS: [Case; 16] = [
    (
        "cpus 1\nexpect\nnever note 7 befor note 1\ndone\n",
        3,
        Fault::Expect(ExpectKind::Line(ScriptKind::UnknownWord)),
        "3:14: unknown word\n    3 | never note 7 befor note 1\n      |              \
         ^^^^^\nbehind an event stands after, before, twice, above or on; is \"before\" meant?\n",
    ),
    (
        "cpus 1\nexpect\nnever int DIRQL 5 with int DIRQL 5 on 0\ndone\n",
        3,
        Fault::Expect(ExpectKind::Line(ScriptKind::ExtraField)),
        "3:36: a field too many\n    3 | never int DIRQL 5 with int DIRQL 5 on 0\n      |         \
         \u{20}        \u{20}                 ^^\nnothing more may stand in this line: a comment \
         begins with #\n",
    ),
    (
        "cpus 1\nexpect\nnever call raise 2 -> yes\ndone\n",
        3,
        Fault::Expect(ExpectKind::Line(ScriptKind::WrongKind)),
        "3:23: not of the kind that stands here\n    3 | never call raise 2 -> yes\n      |      \
         \u{20}      \u{20}         ^^^\nthe command never gives this reply: docs/machine.md \
         tells what each may reply\n",
    ),
    (
        "cpus 1\ntimer tick -\nexpect\nalways expire timer tock\ndone\n",
        4,
        Fault::Expect(ExpectKind::Line(ScriptKind::UnknownName)),
        "4:21: unknown name\n    4 | always expire timer tock\n      |                     \
         ^^^^\nno timer of this name is declared; is `tick` meant?\n",
    ),
    (
        "cpus 1\nexpect\nnever begin\n",
        3,
        Fault::Expect(ExpectKind::Line(ScriptKind::MissingField)),
        "3:12: a field is missing\n    3 | never begin\n      |            ^\nhere stands \
         an activity: int, dpc, apc or thread\n",
    ),
    (
        "cpus 1\nexpect\nalways ends\n",
        3,
        Fault::Expect(ExpectKind::TooMany),
        "3:1: too many expectations\n    3 | always ends\n      | ^^^^^^\na script has at most 64 \
         expectations: ask for the others in a text of their own\n",
    ),
    (
        "cpus 1\nexpect\nalways ends\n",
        4,
        Fault::Expect(ExpectKind::Line(ScriptKind::NoEnd)),
        "4:1: the text ends too early\n    4 | \n      | ^\nexpectations end with \
         the line \"done\"\n",
    ),
    (
        "cpus 1\nexpect\nnever spins k\ndone\n",
        3,
        Fault::Expect(ExpectKind::Line(ScriptKind::UnknownWord)),
        "3:7: unknown word\n    3 | never spins k\n      |       ^^^^^\nthis word is of version 2: \
         write the line \"version 2\" first of all\n",
    ),
    (
        "cpus 1\nexpect\ndone\nend\n",
        4,
        Fault::Expect(ExpectKind::Line(ScriptKind::ExtraField)),
        "4:1: a field too many\n    4 | end\n      | ^^^\nnothing more may stand behind the line \
         \"done\"\n",
    ),
    (
        "cpus 1\nexpect\ndone\nschedule 10000\n",
        4,
        Fault::Expect(ExpectKind::Line(ScriptKind::ExtraField)),
        "4:10: a field too many\n    4 | schedule 10000\n      |          ^^^^^\nnothing more may \
         stand behind the line \"done\"\n",
    ),
    (
        "cpus 1\nschedule 10\nnext 1\ndone\n",
        3,
        Fault::Schedule(ScriptKind::BadNumber),
        "3:6: no number that may stand here\n    3 | next 1\n      |      ^\nprocessors are \
         counted from 0: write a number below that of the line \"cpus\"\n",
    ),
    (
        "cpus 1\nthread main 0 b\nschedule 10\nswitch 0 mian\ndone\n",
        4,
        Fault::Schedule(ScriptKind::UnknownName),
        "4:10: unknown name\n    4 | switch 0 mian\n      |          ^^^^\nno thread of this name \
         is declared; is `main` meant?\n",
    ),
    (
        "cpus 1\nthread main 0 b\nreport\n0 p0 main 0 swtch main\ndone\n",
        4,
        Fault::Report(ScriptKind::UnknownWord),
        "4:1: unknown word\n    4 | 0 p0 main 0 swtch main\n      | ^\nthis word may not stand \
         here: a report begins with \"report\", has a line for each event, and ends with its \
         schedule\n",
    ),
    (
        "cpus 1\nreport\nschedule 10\nnext 1\ndone\n",
        4,
        Fault::Report(ScriptKind::BadNumber),
        "4:6: no number that may stand here\n    4 | next 1\n      |      ^\nprocessors are \
         counted from 0: write a number below that of the line \"cpus\"\n",
    ),
    (
        "cpus 1\nreport 5\n",
        2,
        Fault::Report(ScriptKind::ExtraField),
        "2:8: a field too many\n    2 | report 5\n      |        ^\nnothing more may stand in this \
         line: a comment begins with #\n",
    ),
    (
        "cpus 1\nthread a 0 b\nreport\n3 p0 a 0 gone a\n",
        4,
        Fault::Report(ScriptKind::WrongKind),
        "4:1: not of the kind that stands here\n    4 | 3 p0 a 0 gone a\n      | ^\nthe number of \
         an event is one more than that of the line before it, a name is one of the kind that \
         stands here, and a reply one that the command gives\n",
    ),
];

/// The message on a line.
fn message(
    alloc: Global,
    file: Option<&str>,
    text: &[u8],
    line: u32,
    fault: Fault,
) -> Result<Vec<u8>, AllocError>
    requires { length text.now ≤ INPUT_LIMIT }
{
    let tidied = tidy(alloc, text)?;
    refusal_message(alloc, file, text, &tidied, line, fault)
}

/// Whether the message of a case without a file is this one.
fn is_told(alloc: Global, case: &Case) -> Result<bool, AllocError> {
    let (text, line, fault, told) = *case;
    if text.len() > INPUT_LIMIT {
        return Ok(false);
    }
    let message = message(alloc, None, text.as_bytes(), line, fault)?;
    Ok(message.strip_prefix(b"standard input:") == Some(told.as_bytes()))
}

#[test]
fn each_kind_is_told(rt: HostRuntime) -> Result<(), Fail> {
    for case in &SCRIPTS {
        assert!(rt; is_told(rt.alloc(), case)?, "{}", case.3);
    }
    for case in &OTHERS {
        assert!(rt; is_told(rt.alloc(), case)?, "{}", case.3);
    }
    Ok(())
}

#[test]
fn a_file_is_named(rt: HostRuntime) -> Result<(), Fail> {
    assert!(rt; PUMP.len() <= INPUT_LIMIT);
    let fault = Fault::Script(ScriptKind::UnknownName);
    let file = Some("drivers/pump.script");
    let told = message(rt.alloc(), file, PUMP.as_bytes(), 12, fault)?;
    assert!(rt;
        told.as_slice()
            == b"drivers/pump.script:14:9: unknown name\n   14 |   queue wrok        # the DPC of \
             the pump\n      |         ^^^^\nno DPC object of this name is declared; is `work` \
             meant?\n"
                .as_slice()
    );
    Ok(())
}

#[test]
fn bytes_of_no_text_are_shown(rt: HostRuntime) -> Result<(), Fail> {
    let fault = Fault::Script(ScriptKind::NotAscii);
    let told = message(
        rt.alloc(),
        None,
        b"cpus 1\n\tdpc\xe9  \xb0x\x07\x80y # \xff\n",
        2,
        fault,
    )?;
    assert!(rt;
        told.as_slice()
            == b"standard input:2:2: a character that may not stand here\n    2 |  dpc?  ?x ?y # \
             ?\n      |  ^^^^\nonly letters, digits and signs of ASCII stand outside comments: \
             write the name without accents, and save the text as UTF-8\n"
                .as_slice()
    );
    Ok(())
}

/// Whether the message on an unknown word in line 3 of a text is this one.
fn is_unknown_word(
    alloc: Global,
    file: Option<&str>,
    text: &str,
    told: &str,
) -> Result<bool, AllocError> {
    if text.len() > INPUT_LIMIT {
        return Ok(false);
    }
    let fault = Fault::Script(ScriptKind::UnknownWord);
    let message = message(alloc, file, text.as_bytes(), 3, fault)?;
    Ok(message.as_slice() == told.as_bytes())
}

#[test]
fn what_a_terminal_obeys_is_blank(rt: HostRuntime) -> Result<(), Fail> {
    let file = Some("a\u{1b}[31m\u{202e}b\nc");
    let text = "cpus 1\nroutine r\nqeue \u{9b}31m\u{200b}d\u{7f}\n";
    let told = "a [31m b c:3:1: unknown word\n    3 | qeue  31m d \n      | ^^^^\nno line of a \
                script begins with this word; words are in small letters; is \"queue\" meant?\n";
    assert!(rt; is_unknown_word(rt.alloc(), file, text, told)?);
    Ok(())
}

/// A line of 205 characters, and the message on its first word: 200 of them are shown.
const LONG: (&str, &str) = (
    "cpus 1\nroutine r\nqeue d # 23456789 123456789 123456789 123456789 123456789 123456789 \
     123456789 123456789 123456789 123456789 123456789 123456789 123456789 123456789 \
     123456789 123456789 123456789 123456789 123456789 1234567\n",
    "standard input:3:1: unknown word\n    3 | qeue d # 23456789 123456789 123456789 \
     123456789 123456789 123456789 123456789 123456789 123456789 123456789 123456789 \
     123456789 123456789 123456789 123456789 123456789 123456789 123456789 123456789 12..\n  \
     \x20   | ^^^^\nno line of a script begins with this word; words are in small letters; \
     is \"queue\" meant?\n",
);

/// A line with its word in column 161, and the message: 60 characters in front are not shown.
const FAR: (&str, &str) = (
    "cpus 1\nroutine r\n                                                                     \
     \x20                                                                                    \
     \x20     qeue\n",
    "standard input:3:161: unknown word\n    3 | ..                                          \
     \x20                                                         qeue\n      |              \
     \x20                                                                                    \
     \x20   ^^^^\nno line of a script begins with this word; words are in small letters; is \
     \"queue\" meant?\n",
);

#[test]
fn long_lines_are_cut(rt: HostRuntime) -> Result<(), Fail> {
    assert!(rt; is_unknown_word(rt.alloc(), None, LONG.0, LONG.1)?);
    assert!(rt; is_unknown_word(rt.alloc(), None, FAR.0, FAR.1)?);
    Ok(())
}
