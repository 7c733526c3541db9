//! Each public call once, with texts that are worked by hand.
ghost use Rattle.std.specs.Prelude.{◌≤◌, length};
ghost use Rattle.nt_text.specs.declared.lines.TheConstants.{INPUT_LIMIT};

use nt_friendly::{field_place, tidy};
use nt_text::INPUT_LIMIT;
use std::alloc::{AllocError, Global};
use std::test::Fail;

/// The script of page 01 of the tutorial with two more commands and an interrupt routine, and
/// expectations behind it, as people may write them.
const FRIENDLY: &str = "\u{feff}# 01 When does my DPC run?\r\n\r\ncpus  1\t# one processor\r\n\
    \tisr 0 DIRQL 5 run\n\
    dpc   work run   \nthread main 0 body#the thread\n  \t \nroutine run\n    note 7\nexit\n\
    routine body\n    raise DISPATCH  # no DPC from here on\n    queue work\n    note 1\n    \
    lower PASSIVE # now\n    interrupt 0 DIRQL 11\r\n    interrupt 0 CLOCK\nexit\n\
    # what shall hold\nexpect\n  never note 7 before note 1\n\
    never begin dpc work above DISPATCH\nnever int DIRQL 5 with int CLOCK\n\
    never call raise HIGH -> done after call lower APC -> done\n\
    never call interrupt 0 IPI -> done above SYNCH\nalways note 7\ndone";

/// What it means.
const STRICT: &str = "cpus 1\nisr 0 5 run\ndpc work run\nthread main 0 body\nroutine run\n\
    note 7\nexit\nroutine body\nraise 2\nqueue work\nnote 1\nlower 0\ninterrupt 0 11\n\
    interrupt 0 13\nexit\nexpect\nnever note 7 before note 1\nnever begin dpc work above 2\n\
    never int 5 with int 13\nnever call raise 15 -> done after call lower 1 -> done\n\
    never call interrupt 0 14 -> done above 12\nalways note 7\ndone\n";

/// The numbers of its lines.
const NUMBERS: [u32; 23] = [
    3, 4, 5, 6, 8, 9, 10, 11, 12, 13, 14, 15, 16, 17, 18, 20, 21, 22, 23, 24, 25, 26, 27,
];

/// Lines, and what each means.
const LINES: [(&str, &str); 24] = [
    ("", ""),
    (" \t\r", ""),
    ("# raise 2", ""),
    ("note 7#8", "note 7\n"),
    (" \u{feff} \u{feff}cpus 1", "cpus 1\n"),
    ("cpus \u{feff}1", "cpus \u{feff}1\n"),
    ("note é", "note é\n"),
    ("raise DIRQL 3", "raise 3\n"),
    ("raise DIRQL 2", "raise DIRQL 2\n"),
    ("raise DIRQL 12", "raise DIRQL 12\n"),
    ("raise DIRQL", "raise DIRQL\n"),
    ("raise dispatch", "raise dispatch\n"),
    ("raise APC HIGH", "raise 1 HIGH\n"),
    ("queue DISPATCH", "queue DISPATCH\n"),
    ("clock CLOCK", "clock CLOCK\n"),
    ("thread HIGH 0 body", "thread HIGH 0 body\n"),
    ("special int HIGH run", "special int HIGH run\n"),
    ("isr IPI IPI raise", "isr IPI 14 raise\n"),
    (
        "never call target int HIGH -> done",
        "never call target int HIGH -> done\n",
    ),
    (
        "never gone above above SYNCH",
        "never gone above above 12\n",
    ),
    (
        "never thread int with int CLOCK",
        "never thread int with int 13\n",
    ),
    (
        "never call wait kernel plain -> blocked above APC",
        "never call wait kernel plain -> blocked above 1\n",
    ),
    (
        "never call queue above -> yes above PASSIVE",
        "never call queue above -> yes above 0\n",
    ),
    (
        "never expire timer int after begin int DIRQL 4",
        "never expire timer int after begin int 4\n",
    ),
];

/// Whether a text means another one, whose lines come from those of these numbers.
fn means(alloc: Global, friendly: &[u8], strict: &[u8], numbers: &[u32]) -> Result<bool, AllocError>
    requires { length friendly.now ≤ INPUT_LIMIT }
{
    let tidied = tidy(alloc, friendly)?;
    Ok(tidied.text.as_slice() == strict && tidied.lines.as_slice() == numbers)
}

#[test]
fn a_friendly_text_means_a_strict_one(rt: HostRuntime) -> Result<(), Fail> {
    assert!(rt; FRIENDLY.len() <= INPUT_LIMIT && STRICT.len() <= INPUT_LIMIT);
    let friendly = FRIENDLY.as_bytes();
    let strict = STRICT.as_bytes();
    assert!(rt; means(rt.alloc(), friendly, strict, &NUMBERS)?);
    Ok(())
}

#[test]
fn a_level_is_replaced_where_it_stands(rt: HostRuntime) -> Result<(), Fail> {
    for (line, strict) in &LINES {
        assert!(rt; line.len() <= INPUT_LIMIT);
        let numbers: &[u32] = if strict.is_empty() { &[] } else { &[1] };
        assert!(rt;
            means(rt.alloc(), line.as_bytes(), strict.as_bytes(), numbers)?,
            "{line}"
        );
    }
    Ok(())
}

#[test]
fn a_field_is_found_in_its_line(rt: HostRuntime) {
    let line = b"\traise  DISPATCH # no DPC";
    assert!(rt; field_place(line, 0) == Some((2, 5)));
    assert!(rt; field_place(line, 1) == Some((9, 8)));
    assert!(rt; field_place(line, 2) == None);
    assert!(rt; field_place(b"\xef\xbb\xbfcpus 1", 1) == Some((9, 1)));
}
