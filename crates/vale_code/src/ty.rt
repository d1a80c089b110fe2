use vale_base::Kind;

/// The type of a register, a field, an element, a parameter or a result.
#[derive(Clone, Copy, Debug, PartialEq, Eq)]
pub enum Ty {
    /// No value.
    Void,
    /// A number.
    Int,
    /// A truth.
    Truth,
    /// A text.
    Text,
    /// The owner of an object.
    Own(Kind),
    /// A reference to an object.
    Ref(Kind),
    /// A reference into frozen data.
    Frozen(Kind),
    /// An isolate, by the kind of its root.
    Iso(Kind),
}
