/// Which ways from kind to kind count.
#[derive(Clone, Copy, Drop)]
pub enum Way {
    /// Those by fields, elements, references and implementations.
    Any,
    /// Those from an array to an array that it owns.
    Arrays,
}
