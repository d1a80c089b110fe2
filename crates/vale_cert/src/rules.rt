/// Which rules of an instruction are kept: 2 of types, 3 of empty registers, owners and isolates, 4 of depths.
#[derive(Clone, Copy, Debug, PartialEq, Eq)]
pub struct Kept {
    pub types: bool,
    pub present: bool,
    pub depths: bool,
}
