//! Runs of scripts of the tutorial (docs/tutorial), with the lines worked by hand from their
//! reports.
ghost use Rattle.std.specs.Prelude.{◌≤◌, ◌*◌};
ghost use Rattle.nt_script.specs.Sound.{IsSound};

use nt_core::run;
use nt_event::limits::{EVENTS, TURNS};
use nt_history::History;
use nt_script::{Input, read};
use nt_text::INPUT_LIMIT;
use nt_view::view;
use std::alloc::Global;
use std::test::Fail;

/// Page 04: what is refused at which level.
const MISTAKES: &str = "cpus 1\nisr 0 5 device\ndpc work run\ntimer t -\nthread main 0 body\n\
    special s main none\nroutine none\nexit\nroutine device\nsettimer t 1 0\napc s\nqueue work\n\
    exit\nroutine run\nwait kernel plain\nlower 1\nexit\nroutine body\nraise 2\nraise 1\nlower 3\n\
    wait kernel plain\nlower 0\ninterrupt 0 5\nexit\n";

const MISTAKES_VIEW: &str = " 0  p0  main  PASSIVE   switch to main
 1  p0  main  DISPATCH  raise DISPATCH -> done
 2  p0  main  DISPATCH  raise APC -> refused: below the present level
 3  p0  main  DISPATCH  lower DIRQL 3 -> refused: above the present level
 4  p0  main  DISPATCH  wait (kernel, plain) -> refused: level above APC
 5  p0  main  PASSIVE   lower PASSIVE -> done
 6  p0  main  PASSIVE   request interrupt 5 on p0 -> done
 7  p0  main  DIRQL 5   begin interrupt 5 (asked at 6)
 8  p0  main  DIRQL 5   set timer t: due in 1 -> refused: level above DISPATCH
 9  p0  main  DIRQL 5   insert apc s -> refused: level above DISPATCH
10  p0  main  DIRQL 5   queue work -> yes
11  p0  main  PASSIVE   end interrupt 5
12  p0  main  DISPATCH  begin dpc work (queued at 10)
13  p0  main  DISPATCH  wait (kernel, plain) -> refused: not in a thread
14  p0  main  DISPATCH  lower APC -> refused: below the level at which the routine began
15  p0  main  PASSIVE   end dpc work
16  p0  main  PASSIVE   dispatch served
17  p0  main  PASSIVE   end thread main
18  p0  main  PASSIVE   thread main is gone
19  p0  -     PASSIVE   rest
";

/// Page 14: a wait in a guarded region, and the APC that would end it.
const HANG: &str = "cpus 2\nthread w 0 waiter\nthread x 1 device\nspecial done w complete\n\
    routine complete\nrelease w\nexit\nroutine waiter\nenterguard\nwait kernel plain\nleaveguard\n\
    note 1\nexit\nroutine device\nnote 7\nnote 8\nnote 9\napc done\nexit\n";

const HANG_VIEW: &str = " 0  p0  w  PASSIVE   switch to w
 1  p1  x  PASSIVE   switch to x
 2  p0  w  PASSIVE   enter guarded region -> done
 3  p1  x  PASSIVE   note 7 -> done
 4  p0  w  PASSIVE   wait (kernel, plain) -> blocked
 5  p1  x  PASSIVE   note 8 -> done
 6  p0  -  PASSIVE   rest
 7  p1  x  PASSIVE   note 9 -> done
 8  p1  x  PASSIVE   insert apc done -> yes
 9  p0  -  -         look: kernel apc
10  p1  x  PASSIVE   end thread x
11  p0  -  PASSIVE   rest
12  p1  x  PASSIVE   thread x is gone
13  p1  -  PASSIVE   rest
apc done still waits, inserted at 8
";

/// Page 16: a request from its thread over the interrupt to the APC.
const REQUEST: &str = "cpus 2\nisr 0 5 device\ndpc done finish\ndpc late expired\n\
    timer limit late\nthread app 1 request\nspecial complete app signal\nroutine device\n\
    queue done\nexit\nroutine finish\ncanceltimer limit\napc complete\nexit\nroutine expired\n\
    note 99\nexit\nroutine signal\nrelease app\nexit\nroutine request\nsettimer limit 100 0\n\
    interrupt 0 5\nwait kernel plain\nnote 1\nexit\n";

const REQUEST_VIEW: &str = " 0  p0  -    PASSIVE   rest
 1  p1  app  PASSIVE   switch to app
 2  p1  app  PASSIVE   set timer limit: due in 100 -> no
 3  p1  app  PASSIVE   request interrupt 5 on p0 -> done
 4  p0  -    -         look: interrupt 5
 5  p1  app  PASSIVE   wait (kernel, plain) -> blocked
 6  p0  -    DIRQL 5   begin interrupt 5 (asked at 3)
 7  p1  -    PASSIVE   rest
 8  p0  -    DIRQL 5   queue done -> yes
 9  p0  -    PASSIVE   end interrupt 5
10  p0  -    DISPATCH  begin dpc done (queued at 8)
11  p0  -    DISPATCH  cancel timer limit -> yes
12  p0  -    DISPATCH  insert apc complete -> yes
13  p1  -    -         look: dispatch, kernel apc
14  p0  -    PASSIVE   end dpc done
15  p1  -    PASSIVE   dispatch served
16  p0  -    PASSIVE   dispatch served
17  p1  app  PASSIVE   switch to app, its wait ends with STATUS_KERNEL_APC
18  p0  -    PASSIVE   rest
19  p1  app  APC       begin special apc complete (inserted at 12)
20  p1  app  APC       release thread app -> no
21  p1  app  PASSIVE   end special apc complete
22  p1  app  PASSIVE   kernel apc served
23  p1  app  PASSIVE   thread app waits again -> STATUS_SUCCESS
24  p1  app  PASSIVE   note 1 -> done
25  p1  app  PASSIVE   end thread app
26  p1  app  PASSIVE   thread app is gone
27  p1  -    PASSIVE   rest
";

/// Page 17: two threads take two spin locks in opposite order.
const LOCKS: &str = "version 2\ncpus 2\nthread reader 0 ra\nthread writer 1 rb\nspinlock list\n\
    spinlock stats\nroutine ra\nacquire list\nacquire stats\nexit\nroutine rb\nacquire stats\n\
    acquire list\nexit\n";

const LOCKS_VIEW: &str = "\
0  p0  reader  PASSIVE   switch to reader
1  p1  writer  PASSIVE   switch to writer
2  p0  reader  DISPATCH  acquire lock list -> done
3  p1  writer  DISPATCH  acquire lock stats -> done
4  p0  reader  DISPATCH  acquire lock stats -> spins
5  p1  writer  DISPATCH  acquire lock list -> spins
p0 still spins on lock stats, last tried at 4
p1 still spins on lock list, last tried at 5
";

const LOCKS_CUT: &str = "\
0  p0  reader  PASSIVE   switch to reader
1  p1  writer  PASSIVE   switch to writer
2  p0  reader  DISPATCH  acquire lock list -> done
3  p1  writer  DISPATCH  acquire lock stats -> done
p0 is cut: it made as many events as it may
p1 is cut: it made as many events as it may
";

/// Whether a history has this view.
fn shows(alloc: Global, input: &Input, history: &History, wanted: &str) -> Result<bool, Fail>
    requires { IsSound input.now }
{
    let text = view(alloc, input, history)?;
    Ok(text.as_slice() == wanted.as_bytes())
}

/// Whether the run of an input by the robin rule has this view.
fn runs(alloc: Global, input: &Input, limit: u32, wanted: &str) -> Result<bool, Fail>
    requires sound { IsSound input.now }
    requires limit { (1 ≤ limit) × (limit ≤ TURNS) }
    requires all { input.now.script.cpus * limit ≤ EVENTS }
{
    let history = run(alloc, &input.script, limit)?;
    shows(alloc, input, &history, wanted)
}

/// Whether the run of an input by the robin rule has this view. Each processor may make 2 events
/// where it is to be cut, else 100.
fn runs_to(alloc: Global, input: &Input, cut: bool, wanted: &str) -> Result<bool, Fail>
    requires { IsSound input.now }
{
    let _cpus = input.script.cpus;
    if cut {
        runs(alloc, input, 2, wanted)
    } else {
        runs(alloc, input, 100, wanted)
    }
}

/// The same of a script.
fn has_view(alloc: Global, script: &str, cut: bool, wanted: &str) -> Result<bool, Fail> {
    if script.len() > INPUT_LIMIT {
        return Ok(false);
    }
    match read(alloc, script.as_bytes()) {
        Ok(input) => {
            let found = runs_to(alloc, &input, cut, wanted);
            drop(input);
            found
        }
        Err(_) => Ok(false),
    }
}

#[test]
fn refusals_have_reasons(rt: HostRuntime) -> Result<(), Fail> {
    assert!(rt; has_view(rt.alloc(), MISTAKES, false, MISTAKES_VIEW)?);
    Ok(())
}

#[test]
fn an_insert_still_waits(rt: HostRuntime) -> Result<(), Fail> {
    assert!(rt; has_view(rt.alloc(), HANG, false, HANG_VIEW)?);
    Ok(())
}

#[test]
fn a_whole_request(rt: HostRuntime) -> Result<(), Fail> {
    assert!(rt; has_view(rt.alloc(), REQUEST, false, REQUEST_VIEW)?);
    Ok(())
}

#[test]
fn processors_spin_or_are_cut(rt: HostRuntime) -> Result<(), Fail> {
    assert!(rt; has_view(rt.alloc(), LOCKS, false, LOCKS_VIEW)?);
    assert!(rt; has_view(rt.alloc(), LOCKS, true, LOCKS_CUT)?);
    Ok(())
}
