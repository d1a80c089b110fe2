/// A function of the language itself (docs/LANGUAGE.md, "Built-in functions").
#[derive(Clone, Copy, Debug, PartialEq, Eq)]
pub enum BuiltIn {
    Print,
    Println,
    Drop,
    Len,
    Push,
    Pop,
    Text,
    Slice,
    Byte,
    IsNumber,
    Number,
}
