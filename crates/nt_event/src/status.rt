//! The statuses of waits: NTSTATUS values of the driver documentation.

/// STATUS_SUCCESS: the wait is satisfied, or the delay is over.
pub const SUCCESS: u32 = 0;

/// STATUS_USER_APC: a user APC ended the wait.
pub const USER_APC: u32 = 0xC0;

/// STATUS_KERNEL_APC: a kernel APC is deliverable; the wait is taken up again after it.
pub const KERNEL_APC: u32 = 0x100;

/// STATUS_ALERTED: an alert ended the wait.
pub const ALERTED: u32 = 0x101;
