//! As many commands as a script may have.
use super::gives;
use nt_top::Status;
use std::alloc::AllocError;
use std::sync::Wait;
use std::test::Fail;
use std::thread::Threads;

/// Puts a script with a thread that makes 8,192 notes.
fn put_notes(script: &mut String) -> Result<(), AllocError> {
    script.push_str("cpus 1\nthread main 0 body\nroutine body\n")?;
    for _ in 0..8192 {
        script.push_str("note 1\n")?;
    }
    script.push_str("exit\n")
}

/// Puts the report of that script.
fn put_noted(wanted: &mut String) -> Result<(), AllocError> {
    wanted.push_str("report\n0 p0 main 0 switch main\n")?;
    for note in 1..8193u32 {
        write!(wanted, "{note} p0 main 0 call 0 note 1 -> done\n")?;
    }
    wanted.push_str("8193 p0 main 0 end 0\n8194 p0 main 0 gone main\n8195 p0 - 0 rest\n")?;
    wanted.push_str("schedule 10000\nswitch 0 main\n")?;
    for _ in 0..8195 {
        wanted.push_str("next 0\n")?;
    }
    wanted.push_str("done\n")
}

/// Whether that report is written of this script.
fn is_noted<R: AllocGlobal + Threads + Wait + Sync>(
    rt: &R,
    script: &str,
) -> Result<bool, AllocError> {
    let mut wanted = String::new(rt.alloc());
    put_noted(&mut wanted)?;
    gives(rt, &["run"], script.as_bytes(), Status::Ok, wanted.as_str())
}

/// Whether the script is run.
fn notes_are_run<R: AllocGlobal + Threads + Wait + Sync>(rt: &R) -> Result<bool, AllocError> {
    let mut script = String::new(rt.alloc());
    put_notes(&mut script)?;
    is_noted(rt, script.as_str())
}

#[test]
fn eight_thousand_notes_are_run(rt: HostRuntime) -> Result<(), Fail> {
    assert!(rt; notes_are_run(&rt)?);
    Ok(())
}
