/// Where a type stands.
#[derive(Clone, Copy, Debug, PartialEq, Eq)]
pub enum Position {
    /// The type of a field.
    Field,
    /// The type of an array's elements.
    Element,
    /// Any other: the type of a parameter or a result, or what stands after `&` or `iso`.
    Value,
}
