use crate::{Sequence, Ty};

/// A field of a struct.
#[derive(Clone, Copy, Debug, PartialEq, Eq)]
pub struct Field {
    pub ty: Ty,
    /// Whether it may be set.
    pub mutable: bool,
}

/// A method of an interface. The first of the parameters is the receiver.
#[derive(Drop)]
pub struct MethodInfo {
    /// The number of its name among the texts.
    pub name: u32,
    pub is_pure: bool,
    pub params: Sequence<Ty>,
    pub result: Ty,
}

/// A struct, an interface or an array type. A name is a number among the texts, a destructor one among the functions.
#[derive(Drop)]
pub enum KindInfo {
    Struct {
        name: u32,
        destructor: Option<u32>,
        fields: Sequence<Field>,
    },
    Interface {
        name: u32,
        methods: Sequence<MethodInfo>,
    },
    Array {
        item: Ty,
    },
}
