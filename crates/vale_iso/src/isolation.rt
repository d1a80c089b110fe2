// Functions, items and the whole program.
ghost use Rattle.std.specs.Prelude.{◌≡◌, map, OnOk, IfErr};
ghost use Rattle.vale_rules_spec.specs.Judged.{first, first_of, IsFine, IsFirstFault};
ghost use Rattle.vale_core.specs.View.{view_function, view_item, view_core};
ghost use Rattle.vale_region_spec.specs.Isolated.{function_faults, functions_faults, item_faults, items_faults, isolated};

use crate::walk::in_block;
use vale_core::{Core, Function, Item};
use vale_region_spec::verdict;
use vale_syntax::Fault;

fn in_function(function: &Function) -> Option<Fault>
    ensures { result ≡ first_of (function_faults (view_function function.now)) }
{
    in_block(&function.body)
}

#[tactic(auto, using(crate::proofs::WalkLaws::lists))]
fn in_functions(functions: &[Function]) -> Option<Fault>
    ensures { result ≡ first_of (functions_faults (map view_function functions.now)) }
{
    for function in functions {
        if let Some(fault) = in_function(function) {
            return Some(fault);
        }
    }
    None
}

fn in_item(item: &Item) -> Option<Fault>
    ensures { result ≡ first_of (item_faults (view_item item.now)) }
{
    match item {
        Item::Struct(..) | Item::Interface(..) => None,
        Item::Impl(_, _, _, functions) => in_functions(functions.as_slice()),
        Item::Function(function) => in_function(function),
    }
}

#[tactic(auto, using(crate::proofs::WalkLaws::lists))]
fn in_items(items: &[Item]) -> Option<Fault>
    ensures { result ≡ first_of (items_faults (map view_item items.now)) }
{
    for item in items {
        if let Some(fault) = in_item(item) {
            return Some(fault);
        }
    }
    None
}

#[tactic(auto, using(vale_region_spec::proofs::FoundLaws::verdict_is, vale_rules_spec::proofs::JudgedLaws::first_unless))]
fn judge(core: &Core) -> Result<(), Fault>
    ensures { result ≡ first (isolated (view_core core.now)) }
{
    verdict(in_items(core.items.as_slice()))
}

/// Whether the typed tree of a program keeps the rules of isolates.
///
/// Where a node of the tree breaks one of them (docs/LANGUAGE.md, "Freezes and isolates"), it answers the code and the spot
/// of the first such node in post-order, 50 or 51. It takes no memory.
#[tactic(auto, using(crate::proofs::AnswerLaws::ok_is_fine, crate::proofs::AnswerLaws::fault_is_first))]
pub fn isolates(core: &Core) -> Result<(), IsoFault>
    ensures answer { result ≡ first (isolated (view_core core.now)) }
    ensures isolated { OnOk result (IsFine (isolated (view_core core.now)) tt) }
    ensures fault { IfErr result (λ f. IsFirstFault (isolated (view_core core.now)) f) }
{
    judge(core)
}

/// Why a tree is refused: the code of a rule of isolates, and where it is broken.
pub type IsoFault = Fault;
