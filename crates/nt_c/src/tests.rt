//! What no clause says: the text of a run, worked out by hand. And each way in which a call ends.
use crate::{ntrun_call, ntrun_level_allows, ntrun_level_is_device};
use nt_words::USAGE;

/// One processor, on which one thread makes one call.
const SCRIPT: &[u8] = b"cpus 1\nthread main 0 body\nroutine body\nnote 7\nexit\n";

/// The report of its run.
const REPORT: &[u8] = b"report\n0 p0 main 0 switch main\n1 p0 main 0 call 0 note 7 -> done\n\
    2 p0 main 0 end 0\n3 p0 main 0 gone main\n4 p0 - 0 rest\nschedule 500\nswitch 0 main\nnext 0\n\
    next 0\nnext 0\nnext 0\ndone\n";

#[test]
fn a_report_is_at_the_front_of_the_buffer(rt: HostRuntime) {
    let mut output = [b'#'; 300];
    let mut written = 0;
    let status = ntrun_call(
        rt.alloc(),
        b"run --turns 500",
        SCRIPT,
        &mut output,
        &mut written,
    );
    assert_eq!(rt; (status, written), (0, REPORT.len()));
    assert_eq!(rt; &output[..REPORT.len()], REPORT);
    assert_eq!(rt; output[REPORT.len()], b'#');
}

#[test]
fn each_end_has_its_number(rt: HostRuntime) {
    let cases: [(&[u8], u8, &[u8]); 5] = [
        (b"check", 2, b"script line 6: 11 NoEnd\n"),
        (b"run  --turns 500", 1, USAGE.as_bytes()),
        (b"run \xff", 1, USAGE.as_bytes()),
        (b"", 1, USAGE.as_bytes()),
        (b"run live", 12, b""),
    ];
    for (words, number, text) in cases.iter() {
        let mut output = [b'#'; 300];
        let mut written = 999;
        let status = ntrun_call(rt.alloc(), *words, SCRIPT, &mut output, &mut written);
        assert_eq!(rt; (status, written), (*number, text.len()));
        assert_eq!(rt; &output[..text.len()], *text);
    }
    let mut short = [b'#'; 16];
    let mut written = 0;
    let status = ntrun_call(rt.alloc(), b"run", SCRIPT, &mut short, &mut written);
    assert_eq!(rt; (status, written), (5, 16));
    assert_eq!(rt; short.as_slice(), &REPORT[..16]);
}

#[test]
fn levels_are_numbers_below_16(rt: HostRuntime) {
    assert!(rt; ntrun_level_allows(2, 13) && !ntrun_level_allows(13, 13));
    assert!(rt; !ntrun_level_allows(2, 16) && ntrun_level_is_device(3));
}
