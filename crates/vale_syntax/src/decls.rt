use sqlite_items::Items;
use vale_base::Name;

/// A struct, an interface or a function: its name, and its place among the items of the program.
#[derive(Clone, Copy, Debug, PartialEq, Eq)]
pub struct Declared {
    pub name: Name,
    pub item: usize,
}

/// An implementation of an interface by a struct, and its place among the items of the program.
#[derive(Clone, Copy, Debug, PartialEq, Eq)]
pub struct Implemented {
    pub interface: Name,
    pub of: Name,
    pub item: usize,
}

/// What a program declares, in the order of the program. The number of a struct, an interface, an implementation or a
/// function is its place in its list.
#[derive(Drop)]
pub struct Decls {
    pub structs: Items<Declared>,
    pub interfaces: Items<Declared>,
    pub impls: Items<Implemented>,
    pub functions: Items<Declared>,
}
