// What a seat knows. Contracts speak of these types; no value of them is made.
use std::collections::LinkedList;

/// Whose view it is.
pub enum Role {
    Root,
    Worker,
    /// Of a worker that was joined.
    Spent,
}

/// What a seat knows of one frame.
pub struct Mark {
    /// No generation that the frame's page will have while it is free is below it.
    pub floor: u64,
    /// The base at which the seat claimed the frame, where it holds it.
    pub bases: LinkedList<u64>,
    /// Whether the frame is known to be out.
    pub is_out: bool,
    /// The base that was seen in the frame's word, or 0.
    pub seen: u64,
    /// Whether the frame's slot is in the seat's hand.
    pub carried: bool,
}

/// What a seat knows.
pub struct View {
    pub role: Role,
    /// Of the root: how many worker seats are out.
    pub workers: u64,
    /// For each frame, by its number.
    pub marks: LinkedList<Mark>,
}
