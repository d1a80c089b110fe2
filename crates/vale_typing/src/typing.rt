// Functions, items and the whole program.
ghost use Rattle.std.specs.Prelude.{◌≡◌, List, [], IfOk, map};
ghost use Rattle.vale_base.specs.Faults.{IfFault, IsValueUnlessMemory, IsFaultUnlessMemory};
ghost use Rattle.vale_rules_spec.specs.DeclFaults.{declared};
ghost use Rattle.vale_rules_spec.specs.Declarations.{head_name};
ghost use Rattle.vale_rules_spec.specs.Returns.{block_returns};
ghost use Rattle.vale_rules_spec.specs.Judged.{first, leaf, Gives, IsFine, IsFirstFault};
ghost use Rattle.vale_rules_spec.specs.TypeRules.{head_gives, function_rules};
ghost use Rattle.vale_rules_spec.specs.Typed as t;
ghost use Rattle.vale_rules_spec.specs.Typing.{with_params, entry, void_block, in_function, in_functions, in_item, in_items, typed};
ghost use Rattle.vale_rules_spec.specs.Types as y;
ghost use Rattle.vale_syntax.specs.View.{view_param, view_head, view_block, view_function, view_item, view_tree};
ghost use Rattle.vale_syntax.specs.declared.fault.Fault.{Fault};
ghost use Rattle.vale_core.specs.View as c;
ghost use Rattle.vale_types.specs.Plain.{HasNoInterface};
ghost use Rattle.vale_seen.specs.Scope.{framed};
ghost use Rattle.vale_lookup.specs.Table.{names_of, items_of};
ghost use Rattle.vale_typed_parts.specs.Walk.{env_at};

use crate::check::type_void_block;
use sqlite_items::Items;
use std::alloc::Global;
use vale_base::{Fail, Memory};
use vale_core::{
    Block as TypedBlock, Core, Function as TypedFunction, Item as TypedItem, block_returns,
};
use vale_held::Held;
use vale_lookup::Table;
use vale_seen::{Local, Scope, result_of, type_of};
use vale_syntax::{Decls, Fault, Function, Head, Item, Param, Tree};
use vale_type_faults::function_fault;
use vale_typed_parts::{copy_fields, copy_head, copy_heads, room_for};

/// The locals that the parameters of a function are.
fn params_in(alloc: Global, params: &[Param]) -> Result<Vec<Local>, Memory>
    ensures { IfOk result (λ locals. (gives : y.Ty) → with_params (map view_param params.now) (env_at gives 0 []) ≡ env_at gives 0 (framed locals.items [])) }
{
    let mut locals = Vec::new(alloc);
    for param in params {
        let ty = type_of(alloc, &param.ty)?;
        locals.push(Local {
            name: param.name.name,
            ty,
            depth: 0,
        })?;
    }
    Ok(locals)
}

/// A function over its body.
#[tactic(auto, using(vale_rules_spec::proofs::JudgedLaws::first_leaf))]
fn function_over(
    alloc: Global,
    head: &Head,
    body: Held<TypedBlock>,
) -> Result<Held<TypedFunction>, Fail<Fault>>
    ensures { Gives c.view_function result (first (leaf (head_name (view_head head.now)).at (function_rules (head_gives (view_head head.now)) (block_returns (c.view_block body))) (t.function_body (view_head head.now) (c.view_block body)))) }
{
    let gives = Held::new(result_of(alloc, &head.result)?);
    let returns = block_returns(body.get());
    if let Some(code) = function_fault(gives.get(), returns) {
        let at = head.name.at;
        return Err(Fail::Is(Fault { code, at }));
    }
    let head = copy_head(alloc, head)?;
    let body = body.into_inner();
    Ok(Held::new(TypedFunction { head, body }))
}

/// The body of a function, under its parameters.
fn type_body(
    alloc: Global,
    table: &Table,
    function: &Function,
) -> Result<Held<TypedBlock>, Fail<Fault>>
    ensures { Gives c.view_block result (first (void_block (names_of table.now) (items_of table.now) (entry (view_head function.now.head)) (view_block function.now.body))) }
{
    let gives = Held::new(result_of(alloc, &function.head.result)?);
    let locals = params_in(alloc, function.head.params.as_slice())?;
    let outside = Scope::Outside;
    let scope = Scope::Frame(&locals, &outside);
    type_void_block(alloc, table, &function.body, gives.get(), 0, &scope)
}

#[tactic(auto, using(vale_rules_spec::proofs::JudgedLaws::first_node))]
fn type_function(
    alloc: Global,
    table: &Table,
    function: &Function,
) -> Result<Held<TypedFunction>, Fail<Fault>>
    ensures { Gives c.view_function result (first (in_function (names_of table.now) (items_of table.now) (view_function function.now))) }
{
    let body = type_body(alloc, table, function)?;
    function_over(alloc, &function.head, body)
}

fn type_functions(
    alloc: Global,
    table: &Table,
    functions: &[Function],
) -> Result<Items<TypedFunction>, Fail<Fault>>
    ensures { Gives (map c.view_function) result (first (in_functions (names_of table.now) (items_of table.now) (map view_function functions.now))) }
{
    let mut done = room_for(alloc, functions.len())?;
    for function in functions {
        let function = type_function(alloc, table, function)?;
        done.push(function.into_inner())?;
    }
    Ok(done)
}

#[tactic(auto, using(vale_rules_spec::proofs::JudgedLaws::first_plain))]
fn type_item(alloc: Global, table: &Table, item: &Item) -> Result<Held<TypedItem>, Fail<Fault>>
    ensures { Gives c.view_item result (first (in_item (names_of table.now) (items_of table.now) (view_item item.now))) }
{
    match item {
        Item::Struct(name, fields) => {
            let fields = copy_fields(alloc, fields.as_slice())?;
            Ok(Held::new(TypedItem::Struct(*name, fields)))
        }
        Item::Interface(name, heads) => {
            let heads = copy_heads(alloc, heads.as_slice())?;
            Ok(Held::new(TypedItem::Interface(*name, heads)))
        }
        Item::Impl(at, interface, of, functions) => {
            let functions = type_functions(alloc, table, functions.as_slice())?;
            Ok(Held::new(TypedItem::Impl(*at, *interface, *of, functions)))
        }
        Item::Function(function) => {
            let function = type_function(alloc, table, function)?;
            Ok(Held::new(TypedItem::Function(function.into_inner())))
        }
    }
}

fn type_items(alloc: Global, table: &Table, items: &[Item]) -> Result<Items<TypedItem>, Fail<Fault>>
    ensures { Gives (map c.view_item) result (first (in_items (names_of table.now) (items_of table.now) (map view_item items.now))) }
{
    let mut done = room_for(alloc, items.len())?;
    for item in items {
        let item = type_item(alloc, table, item)?;
        done.push(item.into_inner())?;
    }
    Ok(done)
}

fn type_tree(alloc: Global, tree: Tree) -> Result<Core, Fail<Fault>>
    ensures { Gives c.view_core result (first (typed (view_tree tree))) }
{
    let Tree { names, items } = tree;
    let table = Table::new(alloc, names, items)?;
    let items = type_items(alloc, &table, table.items())?;
    let (names, _items) = table.into_parts();
    Ok(Core { names, items })
}

/// The typed tree of a program of which this was declared.
///
/// Where a node of the tree breaks a rule of types (docs/LANGUAGE.md, "Types"), it answers the code and the spot of the
/// first such node in post-order, and there the lowest code, from 20 to 28. Else it gives the tree with what is known of
/// each expression.
#[tactic(auto, using(vale_rules_spec::proofs::JudgedLaws::value_is_fine, vale_rules_spec::proofs::JudgedLaws::fault_is_first, vale_rules_spec::proofs::JudgedLaws::what_is_fine_is_given, vale_rules_spec::proofs::JudgedLaws::first_fault_is_given))]
pub fn type_all(alloc: Global, tree: Tree, _decls: &Decls) -> Result<Core, Fail<TypeFault>>
    requires plain { HasNoInterface (view_tree tree) }
    requires declared { IsFine (declared (view_tree tree)) _decls.now }
    ensures typed { IfOk result (λ p. IsFine (typed (view_tree tree)) (c.view_core p)) }
    ensures fault { IfFault result (λ f. IsFirstFault (typed (view_tree tree)) f) }
    ensures all_typed { (p : t.Typed) → IsFine (typed (view_tree tree)) p → IsValueUnlessMemory result (λ q. c.view_core q ≡ p) }
    ensures all_faults { (f : Fault) → IsFirstFault (typed (view_tree tree)) f → IsFaultUnlessMemory result (λ g. g ≡ f) }
{
    type_tree(alloc, tree)
}

/// Why a tree is refused: the code of a rule of types, and where it is broken.
pub type TypeFault = Fault;
