use crate::ty::Ty;

/// How a step sees the object that it starts from.
#[derive(Drop)]
pub enum View {
    /// There is nothing to step into.
    Blind,
    /// An owner local of this depth: the object is there.
    Direct(Ty),
    /// As `&X`.
    Shared(Ty),
    /// As `&imm X`.
    Frozen(Ty),
}

/// What is known of an expression: its type as a value, how a step from it sees it, and where it names a place the type
/// of that place.
pub struct Seen {
    pub value: Ty,
    pub view: View,
    pub place: Option<Ty>,
}

// Written by hand, so that where one is let go there is one call and not a way for each of its types.
impl Drop for Seen {
    fn drop(self) {
        let Seen {
            value: _,
            view: _,
            place: _,
        } = self;
    }
}
