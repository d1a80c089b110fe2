// Heads, functions, items and the whole program.
ghost use Rattle.std.specs.Prelude.{◌≡◌, map, OnOk, IfOk};
ghost use Rattle.vale_base.specs.Faults.{IfFault, IsValueUnlessMemory, IsFaultUnlessMemory};
ghost use Rattle.vale_rules_spec.specs.Judged.{first, first_of, Gives, IsFine, IsFirstFault};
ghost use Rattle.vale_syntax.specs.View.{view_param, view_head};
ghost use Rattle.vale_syntax.specs.declared.fault.Fault.{Fault};
ghost use Rattle.vale_core.specs.View.{view_function, view_item, view_core};
ghost use Rattle.vale_region_spec.specs.Regions.{param_faults, params_faults, head_faults, heads_faults, function_faults, functions_faults, item_faults, items_faults, framed};
ghost use Rattle.vale_region_rules.specs.Items.{items_of};

use crate::walk::block_fault;
use std::alloc::Global;
use vale_base::Fail;
use vale_core::{Core, Function, Item};
use vale_region_rules::{Signatures, entry, param_fault, result_fault};
use vale_region_spec::{earlier, found_at, verdict};
use vale_syntax::{Fault, Head, Param};

#[tactic(auto, using(crate::proofs::WalkLaws::rows))]
fn fault_of_param(param: &Param) -> Option<Fault>
    ensures { result ≡ first_of (param_faults (view_param param.now)) }
{
    found_at(param.name.at, param_fault(param))
}

fn params_fault(params: &[Param]) -> Option<Fault>
    ensures { result ≡ first_of (params_faults (map view_param params.now)) }
{
    for param in params {
        if let Some(fault) = fault_of_param(param) {
            return Some(fault);
        }
    }
    None
}

// A pure function's, or a pure method's.
#[tactic(auto, using(crate::proofs::WalkLaws::rows))]
fn head_fault(head: &Head) -> Option<Fault>
    ensures { result ≡ first_of (head_faults (view_head head.now)) }
{
    if head.is_pure {
        let own = found_at(head.name.at, result_fault(&head.result));
        earlier(params_fault(head.params.as_slice()), own)
    } else {
        None
    }
}

fn heads_fault(heads: &[Head]) -> Option<Fault>
    ensures { result ≡ first_of (heads_faults (map view_head heads.now)) }
{
    for head in heads {
        if let Some(fault) = head_fault(head) {
            return Some(fault);
        }
    }
    None
}

#[tactic(auto, using(crate::proofs::WalkLaws::rows))]
fn function_fault(signatures: &Signatures<'_>, function: &Function) -> Option<Fault>
    ensures { result ≡ first_of (function_faults (items_of signatures.now) (view_function function.now)) }
{
    let body = block_fault(signatures, entry(&function.head), &function.body);
    earlier(head_fault(&function.head), body)
}

fn functions_fault(signatures: &Signatures<'_>, functions: &[Function]) -> Option<Fault>
    ensures { result ≡ first_of (functions_faults (items_of signatures.now) (map view_function functions.now)) }
{
    for function in functions {
        if let Some(fault) = function_fault(signatures, function) {
            return Some(fault);
        }
    }
    None
}

fn item_fault(signatures: &Signatures<'_>, item: &Item) -> Option<Fault>
    ensures { result ≡ first_of (item_faults (items_of signatures.now) (view_item item.now)) }
{
    match item {
        Item::Struct(..) => None,
        Item::Interface(_, heads) => heads_fault(heads.as_slice()),
        Item::Impl(_, _, _, functions) => functions_fault(signatures, functions.as_slice()),
        Item::Function(function) => function_fault(signatures, function),
    }
}

#[tactic(auto, using(crate::proofs::WalkLaws::rows))]
fn items_fault(signatures: &Signatures<'_>, items: &[Item]) -> Option<Fault>
    ensures { result ≡ first_of (items_faults (items_of signatures.now) (map view_item items.now)) }
{
    for item in items {
        if let Some(fault) = item_fault(signatures, item) {
            return Some(fault);
        }
    }
    None
}

#[tactic(auto, using(vale_region_spec::proofs::FoundLaws::verdict_is, vale_rules_spec::proofs::JudgedLaws::first_unless))]
fn judge(core: &Core, signatures: &Signatures<'_>) -> Result<(), Fault>
    requires { items_of signatures.now ≡ map view_item core.now.items }
    ensures { result ≡ first (framed (view_core core.now)) }
{
    verdict(items_fault(signatures, core.items.as_slice()))
}

fn regions_of(alloc: Global, core: &Core) -> Result<(), Fail<Fault>>
    ensures { Gives (λ x. x) result (first (framed (view_core core.now))) }
{
    let signatures = Signatures::new(alloc, core.items.as_slice())?;
    match judge(core, &signatures) {
        Ok(()) => Ok(()),
        Err(fault) => Err(Fail::Is(fault)),
    }
}

/// Whether the typed tree of a program keeps the rules of freezes.
///
/// Where a node of the tree breaks one of them (docs/LANGUAGE.md, "Freezes and isolates"), it answers the code and the spot
/// of the first such node in post-order, from 40 to 44.
#[tactic(auto, using(vale_rules_spec::proofs::JudgedLaws::value_is_fine, vale_rules_spec::proofs::JudgedLaws::fault_is_first, vale_rules_spec::proofs::JudgedLaws::what_is_fine_is_given, vale_rules_spec::proofs::JudgedLaws::first_fault_is_given))]
pub fn regions(alloc: Global, core: &Core) -> Result<(), Fail<RegionFault>>
    ensures framed { OnOk result (IsFine (framed (view_core core.now)) tt) }
    ensures fault { IfFault result (λ f. IsFirstFault (framed (view_core core.now)) f) }
    ensures all_framed { IsFine (framed (view_core core.now)) tt → IsValueUnlessMemory result (λ x. x ≡ tt) }
    ensures all_faults { (f : Fault) → IsFirstFault (framed (view_core core.now)) f → IsFaultUnlessMemory result (λ g. g ≡ f) }
{
    regions_of(alloc, core)
}

/// Why a tree is refused: the code of a rule of freezes, and where it is broken.
pub type RegionFault = Fault;
