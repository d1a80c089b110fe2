// The names that are declared, and what steps and operators say of their parts.
ghost use Rattle.std.specs.Prelude.{◌≡◌, ◌+◌, ◌<◌, List, IfOk, OnOk, length, drop, map};
ghost use Rattle.vale_rules_spec.specs.Judged.{first, leaf, Gives};
ghost use Rattle.vale_syntax.specs.View.{view_step, steps_of};
ghost use Rattle.vale_rules_spec.specs.Takes.{is_value_under};
ghost use Rattle.vale_rules_spec.specs.Types as y;
ghost use Rattle.vale_rules_spec.specs.TypeRules.{new_name_rules, isolate_in};
ghost use Rattle.vale_rules_spec.specs.Typed.{type};
ghost use Rattle.vale_rules_spec.specs.Typing.{new_names, with_local, with_locals, after, isolate_of, is_used};
ghost use Rattle.vale_core.specs.View.{view_ty, view_expr, view_stmt};
ghost use Rattle.vale_seen.specs.Scope.{framed, locals};
ghost use Rattle.vale_typed_parts.specs.Walk.{env_at};

use sqlite_items::Items;
use std::alloc::Global;
use vale_base::{Fail, Memory};
use vale_core::{Expr, Stmt, Ty};
use vale_seen::{Local, Scope, type_in};
use vale_syntax::{Fault, NameAt, Step, UnaryOp};
use vale_type_faults::new_name_fault;

/// Whether the name is a new one.
#[tactic(auto, using(vale_rules_spec::proofs::JudgedLaws::first_leaf))]
pub fn new_name(scope: &Scope, name: NameAt) -> Result<(), Fail<Fault>>
    ensures { Gives (λ u. name) result (first (leaf name.at (new_name_rules name (locals scope.now)) name)) }
{
    if let Some(code) = new_name_fault(scope, name) {
        return Err(Fail::Is(Fault { code, at: name.at }));
    }
    Ok(())
}

/// A local of this name and type, declared after those of the frame.
#[tactic(auto, using(crate::proofs::FrameLaws::framed_more))]
fn push_local(
    alloc: Global,
    depth: u32,
    frame: &mut Vec<Local>,
    name: NameAt,
    ty: &Ty,
) -> Result<(), Memory>
    ensures { OnOk result ((gives : y.Ty) (outer : List y.Local) → with_local name (view_ty ty.now) (env_at gives depth (framed frame.old.items outer)) ≡ env_at gives depth (framed frame.new.items outer)) }
{
    let ty = ty.copy(alloc)?;
    let local = Local {
        name: name.name,
        ty,
        depth,
    };
    Ok(frame.push(local)?)
}

/// Names that are declared together, each with those before it.
pub fn new_names(
    alloc: Global,
    depth: u32,
    scope: &Scope,
    names: &[NameAt],
) -> Result<Items<NameAt>, Fail<Fault>>
    ensures { (gives : y.Ty) → Gives (λ ns. ns) result (first (new_names (env_at gives depth (locals scope.now)) names.now)) }
{
    let mut frame = Vec::new(alloc);
    let mut done = Items::new(alloc);
    for name in names {
        new_name(&Scope::Frame(&frame, &*scope), *name)?;
        push_local(alloc, depth, &mut frame, *name, &Ty::Void)?;
        done.push(*name)?;
    }
    Ok(done)
}

fn declare_each(
    alloc: Global,
    depth: u32,
    frame: &mut Vec<Local>,
    names: &[NameAt],
    types: &[Ty],
) -> Result<(), Memory>
    ensures { OnOk result ((gives : y.Ty) (outer : List y.Local) → with_locals names.now (map view_ty types.now) (env_at gives depth (framed frame.old.items outer)) ≡ env_at gives depth (framed frame.new.items outer)) }
{
    match names {
        [] => Ok(()),
        [name, names @ ..] => match types {
            [] => Ok(()),
            [ty, types @ ..] => {
                push_local(alloc, depth, frame, *name, ty)?;
                declare_each(alloc, depth, frame, names, types)?;
                Ok(())
            }
        },
    }
}

/// The locals that a statement leaves after.
#[tactic(auto, using(crate::proofs::Rules::typed_stmts))]
pub fn declare_all(
    alloc: Global,
    depth: u32,
    frame: &mut Vec<Local>,
    stmt: &Stmt,
) -> Result<(), Memory>
    ensures { OnOk result ((gives : y.Ty) (outer : List y.Local) → after (view_stmt stmt.now) (env_at gives depth (framed frame.old.items outer)) ≡ env_at gives depth (framed frame.new.items outer)) }
{
    match stmt {
        Stmt::Declare(name, ty, _) => push_local(alloc, depth, frame, *name, ty),
        Stmt::Destructure(_, names, types, _) => {
            declare_each(alloc, depth, frame, names.as_slice(), types.as_slice())
        }
        Stmt::Return(..) | Stmt::While(..) | Stmt::Foreach(..) => Ok(()),
        Stmt::Form(_) | Stmt::Express(_) => Ok(()),
    }
}

/// What the name of a loop over isolates is.
#[tactic(auto, using(vale_seen::proofs::TyLaws::types))]
pub fn element_of(alloc: Global, over: &Expr) -> Result<Ty, Memory>
    ensures { IfOk result (λ x. view_ty x ≡ isolate_of (isolate_in (type (view_expr over.now)))) }
{
    match type_in(over) {
        Ty::Array(element) => match element.get() {
            Ty::Iso(root) => Ok(Ty::isolate(alloc, root.get().copy(alloc)?)?),
            _ => Ok(Ty::Void),
        },
        _ => Ok(Ty::Void),
    }
}

/// Whether the step's value is used as that of all steps is: it is the last.
pub fn is_used(as_value: bool, steps: &[Step], index: usize) -> bool
    requires { index < length steps.now }
    ensures { result ≡ is_used as_value (steps_of (map view_step (drop (index + 1) steps.now))) }
{
    match &steps[index + 1..] {
        [] => as_value,
        [_next, ..] => false,
    }
}

/// Whether an operator's operand is used as a value.
pub fn is_value_under(op: UnaryOp) -> bool
    ensures { result ≡ is_value_under op }
{
    match op {
        UnaryOp::Borrow => false,
        UnaryOp::Minus | UnaryOp::Not | UnaryOp::Merge => true,
    }
}
