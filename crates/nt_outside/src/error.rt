// What the calls of this crate refuse by.
use thiserror::Error;

/// A source or a sink could not move a byte in this call. Its count of faults rose.
#[derive(Clone, Copy, Debug, PartialEq, Eq, Error)]
#[error("a read or a write failed")]
pub struct Failed;

/// A sink failed before it had taken all bytes.
#[derive(Clone, Copy, Debug, PartialEq, Eq, Error)]
#[error("write fault")]
pub struct WriteFault;

/// Why `read_all` gives no input.
#[derive(Clone, Copy, Debug, PartialEq, Eq, Error)]
pub enum ReadRefusal {
    /// The source failed: its count of faults rose.
    #[error("read fault")]
    Fault,
    /// The source gave more bytes than the limit.
    #[error("input too long")]
    TooLong,
    /// There was no memory for the bytes.
    #[error("no memory")]
    NoMemory,
}
