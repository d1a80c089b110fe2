// A program's declarations.
ghost use Rattle.std.specs.Prelude.{◌≡◌, ◌↔◌, map, IfOk, IsTrue};
ghost use Rattle.vale_base.specs.Faults.{IfFault, IsValueUnlessMemory, IsFaultUnlessMemory};
ghost use Rattle.vale_syntax.specs.View.{view_item, view_tree};
ghost use Rattle.vale_rules_spec.specs.Judged.{first, Gives, IsFine, IsFirstFault, stopped, own};
ghost use Rattle.vale_rules_spec.specs.Declarations.{declarations, is_function_with, is_main, is_lawful_main};
ghost use Rattle.vale_rules_spec.specs.DeclRules.{program_rules};
ghost use Rattle.vale_rules_spec.specs.DeclFaults.{declared, program_spot};
ghost use Rattle.vale_syntax.specs.declared.decls.Decls.{Decls};
ghost use Rattle.vale_syntax.specs.declared.fault.Fault.{Fault};
ghost use Rattle.vale_types.specs.Plain.{is_plain, HasNoInterface};
ghost use Rattle.std.specs.List.{list_all, list_any};

use crate::collect::collect;
use crate::items::check_items;
use crate::known::Known;
use crate::special::{is_lawful_main, is_main};
use crate::types::kept;
use std::alloc::Global;
use vale_base::{Fail, Spot, Text};
use vale_syntax::{Decls, Fault, Item, Tree};

fn is_main_item(names: &[Text], item: &Item) -> bool
    ensures { result ≡ is_function_with (is_main names.now) (view_item item.now) }
{
    match item {
        Item::Function(function) => is_main(names, &function.head),
        _ => false,
    }
}

fn is_lawful_main_item(names: &[Text], item: &Item) -> bool
    ensures { result ≡ is_function_with (is_lawful_main names.now) (view_item item.now) }
{
    match item {
        Item::Function(function) => is_lawful_main(names, &function.head),
        _ => false,
    }
}

/// Whether a function named `main` is there.
fn has_main(names: &[Text], items: &[Item]) -> bool
    ensures { result ≡ list_any (is_function_with (is_main names.now)) (map view_item items.now) }
{
    for item in items {
        if is_main_item(names, item) {
            return true;
        }
    }
    false
}

/// Whether a lawful `main` is there.
fn has_lawful_main(names: &[Text], items: &[Item]) -> bool
    ensures { result ≡ list_any (is_function_with (is_lawful_main names.now)) (map view_item items.now) }
{
    for item in items {
        if is_lawful_main_item(names, item) {
            return true;
        }
    }
    false
}

/// The fault of the program's node.
fn check_program(names: &[Text], items: &[Item]) -> Result<(), Fault>
    ensures { result ≡ stopped (own program_spot (program_rules names.now (map view_item items.now))) tt }
{
    kept(Spot { line: 1, col: 1 }, 13, has_main(names, items))
}

#[tactic(auto, using(vale_rules_spec::proofs::JudgedLaws::first_unless, vale_rules_spec::proofs::JudgedLaws::stopped_then))]
fn declare_all(alloc: Global, tree: &Tree) -> Result<Decls, Fail<Fault>>
    requires { HasNoInterface (view_tree tree.now) }
    ensures { Gives (λ d. d) result (first (declared (view_tree tree.now))) }
{
    let names = tree.names.as_slice();
    let items = tree.items.as_slice();
    let known = Known::of(alloc, items)?;
    check_items(alloc, names, items, &known, has_lawful_main(names, items))?;
    check_program(names, items)?;
    Ok(collect(alloc, items)?)
}

// A struct or a function.
fn is_plain(item: &Item) -> bool
    ensures { result ≡ is_plain (view_item item.now) }
{
    matches!(item, Item::Struct(..) | Item::Function(_))
}

fn are_plain(items: &[Item]) -> bool
    ensures { result ≡ list_all is_plain (map view_item items.now) }
{
    for item in items {
        if !is_plain(item) {
            return false;
        }
    }
    true
}

/// Whether the program has no interface and no implementation, so that `declare` may be asked.
pub fn has_no_interface(tree: &Tree) -> bool
    ensures { IsTrue result ↔ HasNoInterface (view_tree tree.now) }
{
    are_plain(tree.items.as_slice())
}

/// What the program declares.
///
/// Where a node of the tree breaks a rule of declarations (docs/LANGUAGE.md, "Declarations"), it answers the code and the
/// spot of the first such node in post-order, and there the lowest code, from 10 to 17. Else it gives the structs,
/// interfaces, implementations and functions in the order of the program.
#[tactic(auto, using(vale_rules_spec::proofs::JudgedLaws::value_is_fine, vale_rules_spec::proofs::JudgedLaws::fault_is_first, vale_rules_spec::proofs::JudgedLaws::what_is_fine_is_given, vale_rules_spec::proofs::JudgedLaws::first_fault_is_given))]
pub fn declare(alloc: Global, tree: &Tree) -> Result<Decls, Fail<DeclFault>>
    requires { HasNoInterface (view_tree tree.now) }
    ensures declared { IfOk result (λ d. IsFine (declared (view_tree tree.now)) d) }
    ensures fault { IfFault result (λ f. IsFirstFault (declared (view_tree tree.now)) f) }
    ensures all_declared { (d : Decls) → IsFine (declared (view_tree tree.now)) d → IsValueUnlessMemory result (λ e. e ≡ d) }
    ensures all_faults { (f : Fault) → IsFirstFault (declared (view_tree tree.now)) f → IsFaultUnlessMemory result (λ g. g ≡ f) }
{
    declare_all(alloc, tree)
}

/// Why a tree is refused: the code of a rule of declarations, and where it is broken.
pub type DeclFault = Fault;
