use crate::Text;

/// Bytes that were printed, with the ticks that had been spent when they were.
#[derive(Drop)]
pub struct Piece {
    pub tick: u64,
    pub bytes: Text,
}
