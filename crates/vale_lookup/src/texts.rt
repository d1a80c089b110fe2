// What names are called.
ghost use Rattle.std.specs.Prelude.{◌≡◌};
ghost use Rattle.vale_rules_spec.specs.TypeRules.{built_in_among, built_ins};
ghost use Rattle.vale_lookup.specs.Table.{names_of};

use crate::table::Table;
use vale_names::is_called;
use vale_syntax::{BuiltIn, NameAt};

/// The built-in function that the name stands for.
pub fn built_in_named(table: &Table, name: NameAt) -> Option<BuiltIn>
    ensures { result ≡ built_in_among built_ins (names_of table.now) name }
{
    let names = table.names();
    if is_called(names, b"print", name) {
        Some(BuiltIn::Print)
    } else if is_called(names, b"println", name) {
        Some(BuiltIn::Println)
    } else if is_called(names, b"drop", name) {
        Some(BuiltIn::Drop)
    } else if is_called(names, b"len", name) {
        Some(BuiltIn::Len)
    } else if is_called(names, b"push", name) {
        Some(BuiltIn::Push)
    } else if is_called(names, b"pop", name) {
        Some(BuiltIn::Pop)
    } else if is_called(names, b"text", name) {
        Some(BuiltIn::Text)
    } else if is_called(names, b"slice", name) {
        Some(BuiltIn::Slice)
    } else if is_called(names, b"byte", name) {
        Some(BuiltIn::Byte)
    } else if is_called(names, b"is_number", name) {
        Some(BuiltIn::IsNumber)
    } else if is_called(names, b"number", name) {
        Some(BuiltIn::Number)
    } else {
        None
    }
}
