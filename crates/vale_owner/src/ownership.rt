// Functions, items and the whole program.
ghost use Rattle.std.specs.Prelude.{◌≡◌, not, ◌&&◌, IfOk, OnOk, map};
ghost use Rattle.vale_base.specs.Faults.{IfFault, IsValueUnlessMemory, IsFaultUnlessMemory};
ghost use Rattle.vale_rules_spec.specs.Declarations.{is_drop};
ghost use Rattle.vale_rules_spec.specs.Judged.{first, stopped, Gives, IsFine, IsFirstFault};
ghost use Rattle.vale_rules_spec.specs.Typed as t;
ghost use Rattle.vale_syntax.specs.View.{view_param, view_head};
ghost use Rattle.vale_syntax.specs.declared.fault.Fault.{Fault};
ghost use Rattle.vale_core.specs.View.{view_block, view_function, view_item, view_core};
ghost use Rattle.vale_rules_spec.specs.Owned.{are_taken_apart, function_faults, method_faults, item_faults, items_faults, owned};
ghost use Rattle.vale_owner_flow.specs.FlowView.{found};
ghost use Rattle.vale_owner.specs.Functions.{declaring_params, at_end, body_faults, is_taken_apart, answer};

use crate::moves::block_moves;
use crate::walk::{walk_last, walk_stmts};
use std::alloc::Global;
use vale_base::{Fail, Memory, Text};
use vale_core::{Block, Core, Function, Item};
use vale_owner_flow::FlowState;
use vale_syntax::{Fault, Head, Param};
use vale_types::is_drop;

#[tactic(auto, using(crate::proofs::FunctionLaws::params))]
fn declare_params(params: &[Param], flow_state: &mut FlowState) -> Result<(), Memory>
    ensures { OnOk result (found flow_state.new ≡ declaring_params (map view_param params.now) (found flow_state.old)) }
{
    for param in params {
        flow_state.declare(param.name)?;
    }
    Ok(())
}

// What is found at the end of its body.
#[tactic(auto, using(crate::proofs::FunctionLaws::bodies))]
fn walk_function(alloc: Global, function: &Function) -> Result<FlowState, Memory>
    ensures { IfOk result (λ s. found s ≡ at_end (view_function function.now)) }
{
    let mut flow_state = FlowState::new(alloc);
    declare_params(function.head.params.as_slice(), &mut flow_state)?;
    walk_stmts(alloc, &function.body.stmts, &mut flow_state)?;
    walk_last(alloc, &function.body.last, &mut flow_state)?;
    Ok(flow_state)
}

// Whether the parameter is moved by destructurings alone, and isn't whole at the end.
fn is_taken_apart(param: &Param, body: &Block, flow_state: &FlowState) -> bool
    ensures { result ≡ is_taken_apart (view_param param.now) (view_block body.now) (found flow_state.now).locals }
{
    let moves = block_moves(body, param.name.name);
    flow_state.is_taken_apart(param.name.name, moves)
}

// Whether each parameter of a destructor is, of which it has one.
#[tactic(auto, using(crate::proofs::FunctionLaws::apart))]
fn are_taken_apart(params: &[Param], body: &Block, flow_state: &FlowState) -> bool
    ensures { result ≡ are_taken_apart (map view_param params.now) (view_block body.now) (found flow_state.now).locals }
{
    for param in params {
        if !is_taken_apart(param, body, flow_state) {
            return false;
        }
    }
    true
}

fn answer(fault: Option<Fault>) -> Result<(), Fail<Fault>>
    ensures { Gives (λ x. x) result (answer fault) }
{
    match fault {
        Some(fault) => Err(Fail::Is(fault)),
        None => Ok(()),
    }
}

#[tactic(auto, using(crate::proofs::FunctionLaws::functions))]
fn own_function(alloc: Global, names: &[Text], function: &Function) -> Result<(), Fail<Fault>>
    ensures { Gives (λ x. x) result (stopped (function_faults names.now (view_function function.now)) tt) }
{
    let mut flow_state = walk_function(alloc, function)?;
    if !is_drop(names, &function.head) {
        return answer(flow_state.fault);
    }
    let apart = are_taken_apart(function.head.params.as_slice(), &function.body, &flow_state);
    flow_state.judge(function.head.name.at, 33, apart);
    answer(flow_state.fault)
}

// A method is never a destructor.
#[tactic(auto, using(crate::proofs::FunctionLaws::methods))]
fn own_method(alloc: Global, function: &Function) -> Result<(), Fail<Fault>>
    ensures { Gives (λ x. x) result (stopped (body_faults (view_function function.now)) tt) }
{
    let flow_state = walk_function(alloc, function)?;
    answer(flow_state.fault)
}

fn own_methods(alloc: Global, functions: &[Function]) -> Result<(), Fail<Fault>>
    ensures { Gives (λ x. x) result (stopped (method_faults (map view_function functions.now)) tt) }
{
    for function in functions {
        own_method(alloc, function)?;
    }
    Ok(())
}

fn own_item(alloc: Global, names: &[Text], item: &Item) -> Result<(), Fail<Fault>>
    ensures { Gives (λ x. x) result (stopped (item_faults names.now (view_item item.now)) tt) }
{
    match item {
        Item::Struct(..) | Item::Interface(..) => Ok(()),
        Item::Impl(_, _, _, functions) => own_methods(alloc, functions.as_slice()),
        Item::Function(function) => own_function(alloc, names, function),
    }
}

fn own_items(alloc: Global, names: &[Text], items: &[Item]) -> Result<(), Fail<Fault>>
    ensures { Gives (λ x. x) result (stopped (items_faults names.now (map view_item items.now)) tt) }
{
    for item in items {
        own_item(alloc, names, item)?;
    }
    Ok(())
}

#[tactic(auto, using(vale_rules_spec::proofs::JudgedLaws::first_unless))]
fn own_tree(alloc: Global, core: Core) -> Result<Core, Fail<Fault>>
    ensures same { IfOk result (λ c. c ≡ core) }
    ensures gives { Gives view_core result (first (owned (view_core core))) }
{
    own_items(alloc, core.names.as_slice(), core.items.as_slice())?;
    Ok(core)
}

/// The typed tree of a program that keeps the rules of ownership.
///
/// Where a node of the tree breaks one of them (docs/LANGUAGE.md, "Ownership"), it answers the code and the spot of the
/// first such node in post-order, from 30 to 33. Else it gives the tree as it is.
#[tactic(auto, using(vale_rules_spec::proofs::JudgedLaws::value_is_fine, vale_rules_spec::proofs::JudgedLaws::fault_is_first, vale_rules_spec::proofs::JudgedLaws::what_is_fine_is_given, vale_rules_spec::proofs::JudgedLaws::first_fault_is_given))]
pub fn own(alloc: Global, core: Core) -> Result<Core, Fail<OwnFault>>
    ensures same { IfOk result (λ c. c ≡ core) }
    ensures owned { IfOk result (λ c. IsFine (owned (view_core core)) (view_core c)) }
    ensures fault { IfFault result (λ f. IsFirstFault (owned (view_core core)) f) }
    ensures all_owned { (p : t.Typed) → IsFine (owned (view_core core)) p → IsValueUnlessMemory result (λ c. view_core c ≡ p) }
    ensures all_faults { (f : Fault) → IsFirstFault (owned (view_core core)) f → IsFaultUnlessMemory result (λ g. g ≡ f) }
{
    own_tree(alloc, core)
}

/// Why a tree is refused: the code of a rule of ownership, and where it is broken.
pub type OwnFault = Fault;
