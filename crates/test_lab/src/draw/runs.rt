//! Scripts and the reports of their round-robin runs.

/// Two DPCs with a target on the other processor.
pub const OTHER_PROCESSOR: &str = "\
    cpus 2\ndpc med q\ndpc high q\nthread a 0 ra\nthread b 1 rb\nroutine q\nexit\n\
    routine ra\ntarget med 1\ntarget high 1\nimportance high high\nqueue med\nnote 1\n\
    note 2\nnote 3\nqueue high\nexit\nroutine rb\nnote 11\nnote 12\nnote 13\nnote 14\n\
    note 15\nnote 16\nnote 17\nnote 18\nnote 19\nexit\n";

/// Its report.
pub const OTHER_PROCESSOR_REPORT: &str = "\
    report\n0 p0 a 0 switch a\n1 p1 b 0 switch b\n2 p0 a 0 call 0 target med 1 -> done\n\
    3 p1 b 0 call 1 note 11 -> done\n4 p0 a 0 call 0 target high 1 -> done\n\
    5 p1 b 0 call 1 note 12 -> done\n6 p0 a 0 call 0 importance high high -> done\n\
    7 p1 b 0 call 1 note 13 -> done\n8 p0 a 0 call 0 queue med -> yes\n\
    9 p1 b 0 call 1 note 14 -> done\n10 p0 a 0 call 0 note 1 -> done\n\
    11 p1 b 0 call 1 note 15 -> done\n12 p0 a 0 call 0 note 2 -> done\n\
    13 p1 b 0 call 1 note 16 -> done\n14 p0 a 0 call 0 note 3 -> done\n\
    15 p1 b 0 call 1 note 17 -> done\n16 p0 a 0 call 0 queue high -> yes\n18 p0 a 0 end 0\n\
    19 p1 b 2 begin dpc high of 16\n20 p0 a 0 gone a\n21 p1 b 0 end 19\n22 p0 - 0 rest\n\
    23 p1 b 2 begin dpc med of 8\n24 p1 b 0 end 23\n25 p1 b 0 clean 2\n\
    26 p1 b 0 call 1 note 18 -> done\n27 p1 b 0 call 1 note 19 -> done\n28 p1 b 0 end 1\n\
    29 p1 b 0 gone b\n30 p1 - 0 rest\nschedule 10000\nswitch 0 a\nswitch 1 b\nnext 0\n\
    next 1\nnext 0\nnext 1\nnext 0\nnext 1\nnext 0\nnext 1\nnext 0\nnext 1\nnext 0\nnext 1\n\
    next 0\nnext 1\nnext 0\nlook 1 2=17\nnext 0\nnext 1\nnext 0\nnext 1\nnext 0\nnext 1\n\
    next 1\nnext 1\nnext 1\nnext 1\nnext 1\nnext 1\nnext 1\ndone\n";

/// A thread that waits for ever in a guarded region.
pub const GUARDED_HANG: &str = "\
    cpus 2\nthread w 0 waiter\nthread x 1 device\nspecial done w complete\n\
    routine complete\nrelease w\nexit\nroutine waiter\nenterguard\nwait kernel plain\n\
    leaveguard\nnote 1\nexit\nroutine device\nnote 7\nnote 8\nnote 9\napc done\nexit\n";

/// Its report.
pub const GUARDED_HANG_REPORT: &str = "\
    report\n0 p0 w 0 switch w\n1 p1 x 0 switch x\n2 p0 w 0 call 0 enterguard -> done\n\
    3 p1 x 0 call 1 note 7 -> done\n4 p0 w 0 call 0 wait kernel plain -> blocked\n\
    5 p1 x 0 call 1 note 8 -> done\n6 p0 - 0 rest\n7 p1 x 0 call 1 note 9 -> done\n\
    8 p1 x 0 call 1 apc done -> yes\n10 p1 x 0 end 1\n11 p0 - 0 rest\n12 p1 x 0 gone x\n\
    13 p1 - 0 rest\nwaits 8 apc done\nschedule 10000\nswitch 0 w\nswitch 1 x\nnext 0\n\
    next 1\nnext 0\nnext 1\nnext 0\nnext 1\nnext 1\nlook 0 1=9\nnext 1\nnext 0\nnext 1\n\
    next 1\ndone\n";

/// A request from its start to its completion.
pub const WHOLE_REQUEST: &str = "\
    cpus 2\nisr 0 5 device\ndpc done finish\ndpc late expired\ntimer limit late\n\
    thread app 1 request\nspecial complete app signal\nroutine device\nqueue done\nexit\n\
    routine finish\ncanceltimer limit\napc complete\nexit\nroutine expired\nnote 99\nexit\n\
    routine signal\nrelease app\nexit\nroutine request\nsettimer limit 100 0\n\
    interrupt 0 5\nwait kernel plain\nnote 1\nexit\n";

/// Its report.
pub const WHOLE_REQUEST_REPORT: &str = "\
    report\n0 p0 - 0 rest\n1 p1 app 0 switch app\n\
    2 p1 app 0 call 1 settimer limit 100 0 -> no\n3 p1 app 0 call 1 interrupt 0 5 -> done\n\
    5 p1 app 0 call 1 wait kernel plain -> blocked\n6 p0 - 5 begin int 5 of 3\n\
    7 p1 - 0 rest\n8 p0 - 5 call 6 queue done -> yes\n9 p0 - 0 end 6\n\
    10 p0 - 2 begin dpc done of 8\n11 p0 - 2 call 10 canceltimer limit -> yes\n\
    12 p0 - 2 call 10 apc complete -> yes\n14 p0 - 0 end 10\n15 p1 - 0 clean 2\n\
    16 p0 - 0 clean 2\n17 p1 app 0 switch app status 100\n18 p0 - 0 rest\n\
    19 p1 app 1 begin special complete of 12\n20 p1 app 1 call 19 release app -> no\n\
    21 p1 app 0 end 19\n22 p1 app 0 clean 1\n23 p1 app 0 rewait 1 -> status 0\n\
    24 p1 app 0 call 1 note 1 -> done\n25 p1 app 0 end 1\n26 p1 app 0 gone app\n\
    27 p1 - 0 rest\nschedule 10000\nnext 0\nswitch 1 app\nnext 1\nnext 1\nlook 0 5=4\n\
    next 1\nnext 0\nnext 1\nnext 0\nnext 0\nnext 0\nnext 0\nnext 0\nlook 1 1=13 2=13\n\
    next 0\nnext 1\nnext 0\nswitch 1 app\nnext 0\nnext 1\nnext 1\nnext 1\nnext 1\nnext 1\n\
    next 1\nnext 1\nnext 1\nnext 1\ndone\n";

/// An interrupt while a thread spins on a lock.
pub const WHILE_SPINNING: &str = "\
    version 2\ncpus 2\nisr 1 5 device\ndpc d work\nthread holder 0 hold\n\
    thread waiter 1 want\nspinlock k\nroutine device\nqueue d\nexit\nroutine work\nnote 3\n\
    exit\nroutine hold\nacquire k\ninterrupt 1 5\nnote 1\nnote 1\nnote 1\nunlock k\nexit\n\
    routine want\nacquire k\nnote 2\nunlock k\nexit\n";

/// Its report.
pub const WHILE_SPINNING_REPORT: &str = "\
    report\n0 p0 holder 0 switch holder\n1 p1 waiter 0 switch waiter\n\
    2 p0 holder 2 call 0 acquire k -> done\n3 p1 waiter 2 call 1 acquire k -> spin\n\
    4 p0 holder 2 call 0 interrupt 1 5 -> done\n6 p0 holder 2 call 0 note 1 -> done\n\
    7 p1 waiter 5 begin int 5 of 4\n8 p0 holder 2 call 0 note 1 -> done\n\
    9 p1 waiter 5 call 7 queue d -> yes\n10 p0 holder 2 call 0 note 1 -> done\n\
    11 p1 waiter 2 end 7\n12 p0 holder 0 call 0 unlock k -> done\n14 p0 holder 0 end 0\n\
    15 p1 waiter 2 call 1 acquire k -> done\n16 p0 holder 0 gone holder\n\
    17 p1 waiter 2 call 1 note 2 -> done\n18 p0 - 0 rest\n\
    19 p1 waiter 0 call 1 unlock k -> done\n20 p1 waiter 2 begin dpc d of 9\n\
    21 p1 waiter 2 call 20 note 3 -> done\n22 p1 waiter 0 end 20\n23 p1 waiter 0 clean 2\n\
    24 p1 waiter 0 end 1\n25 p1 waiter 0 gone waiter\n26 p1 - 0 rest\nschedule 10000\n\
    switch 0 holder\nswitch 1 waiter\nnext 0\nnext 1\nnext 0\nlook 1 5=5\nnext 0\nnext 1\n\
    next 0\nnext 1\nnext 0\nnext 1\nnext 0\nlook 1 12=13\nnext 0\nnext 1\nnext 0\nnext 1\n\
    next 0\nnext 1\nnext 1\nnext 1\nnext 1\nnext 1\nnext 1\nnext 1\nnext 1\ndone\n";
