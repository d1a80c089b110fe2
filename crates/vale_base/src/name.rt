/// A name of a program: its index in the program's list of names.
#[derive(Clone, Copy, Debug, PartialEq, Eq)]
pub struct Name(pub u32);

/// A struct, an interface or an array type: its index in the program's list of kinds.
#[derive(Clone, Copy, Debug, PartialEq, Eq)]
pub struct Kind(pub u32);
