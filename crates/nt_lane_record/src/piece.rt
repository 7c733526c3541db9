//! What closing a lane gives.

/// The numbers of the events of one lane, the oldest first, and the lane's own number.
#[derive(Drop)]
pub struct Piece {
    pub lane: u32,
    pub numbers: Vec<u64>,
}
