// What a worker passes before each turn.

/// Stands before each turn of a worker. It can hold a thread up, and promises nothing.
pub trait Gate {
    /// Called before a turn of processor `cpu`, which has made `own` events so far.
    fn pass(&self, cpu: u8, own: u64);
}

/// The gate that holds nobody up.
#[derive(Clone, Copy, Debug)]
pub struct OpenGate;

impl Gate for OpenGate {
    fn pass(&self, _cpu: u8, _own: u64) {}
}
