/// A place in a text. Both numbers count from 1, and a column is a byte (docs/LANGUAGE.md, "Spots").
#[derive(Clone, Copy, Debug, PartialEq, Eq)]
pub struct Spot {
    pub line: u32,
    pub col: u32,
}
