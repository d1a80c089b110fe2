// The first fault of a body, in one walk over it.
ghost use Rattle.std.specs.Prelude.{◌≡◌, None, map, option_map};
ghost use Rattle.vale_rules_spec.specs.Judged.{first_of};
ghost use Rattle.vale_core.specs.View.{view_expr, view_seen, view_node, view_form, view_step, view_stmt, view_block, view_link, view_else_if, exprs_of, links_of, steps_of, elses_of, else_end, stmts_of, last_end, return_of};
ghost use Rattle.vale_region_spec.specs.Regions as f;
ghost use Rattle.vale_region_rules.specs.Items.{items_of};

use sqlite_items::{Boxed, Items};
use vale_base::Spot;
use vale_core::{Block, ElseIf, Expr, Form, Link, Node, Seen, Step, Stmt};
use vale_region_rules::{
    Signatures, array_fault, call_fault, is_value_under, method_fault, name_fault, pure_fault,
    return_fault, return_nothing_fault, set_fault,
};
use vale_region_spec::{Around, earlier, found_at};
use vale_seen::{block_type, type_in};
use vale_syntax::Fault;

#[cycle(walk)]
#[tactic(auto, using(crate::proofs::WalkLaws::exprs))]
fn expr_fault(
    signatures: &Signatures<'_>,
    around: Around,
    as_value: bool,
    expr: &Expr,
) -> Option<Fault>
    ensures { result ≡ first_of (f.expr_faults (items_of signatures.now) around as_value (view_expr expr.now)) }
{
    node_fault(signatures, around, as_value, &expr.seen, &expr.node)
}

#[cycle(walk)]
#[tactic(auto, using(crate::proofs::WalkLaws::nodes))]
fn node_fault(
    signatures: &Signatures<'_>,
    around: Around,
    as_value: bool,
    seen: &Seen,
    node: &Node,
) -> Option<Fault>
    ensures { result ≡ first_of (f.node_faults (items_of signatures.now) around as_value (view_seen seen.now) (view_node node.now)) }
{
    match node {
        Node::Set(at, place, value) => {
            let own = found_at(*at, set_fault(place.get(), type_in(value.get())));
            let later = earlier(expr_fault(signatures, around, true, value.get()), own);
            earlier(expr_fault(signatures, around, false, place.get()), later)
        }
        Node::Chain(operand, links) => {
            let later = links_fault(signatures, around, links);
            earlier(expr_fault(signatures, around, true, operand.get()), later)
        }
        Node::Unary(_, op, operand) => {
            expr_fault(signatures, around, is_value_under(*op), operand.get())
        }
        Node::Steps(base, steps) => {
            let later = steps_fault(signatures, around, steps);
            earlier(expr_fault(signatures, around, false, base.get()), later)
        }
        Node::Number(..) | Node::Quote(..) | Node::Truth(..) => None,
        Node::Name { name, is_outer, .. } => {
            found_at(name.at, name_fault(as_value, seen, *is_outer))
        }
        Node::Call(name, callee, args) => {
            let own = call_fault(signatures, *name, *callee, args.as_slice());
            earlier(
                exprs_fault(signatures, around, args),
                found_at(name.at, own),
            )
        }
        Node::Paren(_, inner) => expr_fault(signatures, around, true, inner.get()),
        Node::Array(at, element, args) => {
            let own = array_fault(element, args.as_slice());
            earlier(exprs_fault(signatures, around, args), found_at(*at, own))
        }
        Node::Iso(_, block) => block_fault(signatures, around.inside(), block),
        Node::Form(form) => form_fault(signatures, around, form.get()),
    }
}

#[cycle(walk)]
#[tactic(auto, using(crate::proofs::WalkLaws::lists))]
fn exprs_fault(signatures: &Signatures<'_>, around: Around, exprs: &Items<Expr>) -> Option<Fault>
    ensures { result ≡ first_of (f.exprs_faults (items_of signatures.now) around (exprs_of (map view_expr exprs.now))) }
{
    let slice = exprs.as_slice();
    for expr in slice {
        if let Some(fault) = expr_fault(signatures, around, true, expr) {
            return Some(fault);
        }
    }
    None
}

#[cycle(walk)]
#[tactic(auto, using(crate::proofs::WalkLaws::links))]
fn link_fault(signatures: &Signatures<'_>, around: Around, link: &Link) -> Option<Fault>
    ensures { result ≡ first_of (f.link_faults (items_of signatures.now) around (view_link link.now)) }
{
    expr_fault(signatures, around, true, &link.operand)
}

#[cycle(walk)]
#[tactic(auto, using(crate::proofs::WalkLaws::lists))]
fn links_fault(signatures: &Signatures<'_>, around: Around, links: &Items<Link>) -> Option<Fault>
    ensures { result ≡ first_of (f.links_faults (items_of signatures.now) around (links_of (map view_link links.now))) }
{
    let slice = links.as_slice();
    for link in slice {
        if let Some(fault) = link_fault(signatures, around, link) {
            return Some(fault);
        }
    }
    None
}

#[cycle(walk)]
#[tactic(auto, using(crate::proofs::WalkLaws::steps))]
fn step_fault(signatures: &Signatures<'_>, around: Around, step: &Step) -> Option<Fault>
    ensures { result ≡ first_of (f.step_faults (items_of signatures.now) around (view_step step.now)) }
{
    match step {
        Step::Field(..) => None,
        Step::Method(_, base, at, name, args) => {
            let own = method_fault(signatures, base, *name, args.as_slice());
            earlier(exprs_fault(signatures, around, args), found_at(*at, own))
        }
        Step::Index(_, _, _, index) => expr_fault(signatures, around, true, index),
    }
}

#[cycle(walk)]
#[tactic(auto, using(crate::proofs::WalkLaws::lists))]
fn steps_fault(signatures: &Signatures<'_>, around: Around, steps: &Items<Step>) -> Option<Fault>
    ensures { result ≡ first_of (f.steps_faults (items_of signatures.now) around (steps_of (map view_step steps.now))) }
{
    let slice = steps.as_slice();
    for step in slice {
        if let Some(fault) = step_fault(signatures, around, step) {
            return Some(fault);
        }
    }
    None
}

#[cycle(walk)]
#[tactic(auto, using(crate::proofs::WalkLaws::forms))]
fn form_fault(signatures: &Signatures<'_>, around: Around, form: &Form) -> Option<Fault>
    ensures { result ≡ first_of (f.form_faults (items_of signatures.now) around (view_form form.now)) }
{
    match form {
        Form::If(_, condition, block, else_ifs, otherwise) => {
            let sides = earlier(
                else_ifs_fault(signatures, around, else_ifs),
                else_fault(signatures, around, otherwise),
            );
            let blocks = earlier(block_fault(signatures, around, block), sides);
            earlier(expr_fault(signatures, around, true, condition), blocks)
        }
        Form::Pure(at, block) => {
            let own = found_at(*at, pure_fault(block_type(block)));
            earlier(block_fault(signatures, around.inside(), block), own)
        }
        Form::ParallelRange(_, _, from, to, block) => {
            let body = block_fault(signatures, around.inside(), block);
            let later = earlier(expr_fault(signatures, around, true, to), body);
            earlier(expr_fault(signatures, around, true, from), later)
        }
        Form::ParallelEach(_, _, over, block) => {
            let body = block_fault(signatures, around.inside(), block);
            earlier(expr_fault(signatures, around, true, over), body)
        }
    }
}

#[cycle(walk)]
#[tactic(auto, using(crate::proofs::WalkLaws::else_ifs))]
fn else_if_fault(signatures: &Signatures<'_>, around: Around, else_if: &ElseIf) -> Option<Fault>
    ensures { result ≡ first_of (f.else_if_faults (items_of signatures.now) around (view_else_if else_if.now)) }
{
    let block = block_fault(signatures, around, &else_if.block);
    earlier(
        expr_fault(signatures, around, true, &else_if.condition),
        block,
    )
}

#[cycle(walk)]
#[tactic(auto, using(crate::proofs::WalkLaws::lists))]
fn else_ifs_fault(
    signatures: &Signatures<'_>,
    around: Around,
    else_ifs: &Items<ElseIf>,
) -> Option<Fault>
    ensures { result ≡ first_of (f.elses_faults (items_of signatures.now) around (elses_of (map view_else_if else_ifs.now) None)) }
{
    let slice = else_ifs.as_slice();
    for else_if in slice {
        if let Some(fault) = else_if_fault(signatures, around, else_if) {
            return Some(fault);
        }
    }
    None
}

#[cycle(walk)]
fn else_fault(
    signatures: &Signatures<'_>,
    around: Around,
    otherwise: &Option<Block>,
) -> Option<Fault>
    ensures { result ≡ first_of (f.elses_faults (items_of signatures.now) around (else_end (option_map view_block otherwise.now))) }
{
    match otherwise {
        Some(block) => block_fault(signatures, around, block),
        None => None,
    }
}

/// The block of a function, of a loop or of a form.
#[cycle(walk)]
#[tactic(auto, using(crate::proofs::WalkLaws::blocks))]
pub fn block_fault(signatures: &Signatures<'_>, around: Around, block: &Block) -> Option<Fault>
    ensures { result ≡ first_of (f.block_faults (items_of signatures.now) around (view_block block.now)) }
{
    let last = last_fault(signatures, around, &block.last);
    earlier(stmts_fault(signatures, around, &block.stmts), last)
}

#[cycle(walk)]
#[tactic(auto, using(crate::proofs::WalkLaws::lists))]
fn stmts_fault(signatures: &Signatures<'_>, around: Around, stmts: &Items<Stmt>) -> Option<Fault>
    ensures { result ≡ first_of (f.stmts_faults (items_of signatures.now) around (stmts_of (map view_stmt stmts.now) None)) }
{
    let slice = stmts.as_slice();
    for stmt in slice {
        if let Some(fault) = stmt_fault(signatures, around, stmt) {
            return Some(fault);
        }
    }
    None
}

#[cycle(walk)]
fn last_fault(
    signatures: &Signatures<'_>,
    around: Around,
    last: &Option<Boxed<Expr>>,
) -> Option<Fault>
    ensures { result ≡ first_of (f.stmts_faults (items_of signatures.now) around (last_end (option_map view_expr last.now))) }
{
    match last {
        Some(value) => expr_fault(signatures, around, true, value.get()),
        None => None,
    }
}

#[cycle(walk)]
#[tactic(auto, using(crate::proofs::WalkLaws::rows))]
fn returned_fault(
    signatures: &Signatures<'_>,
    around: Around,
    at: Spot,
    value: &Option<Boxed<Expr>>,
) -> Option<Fault>
    ensures { result ≡ first_of (f.stmt_faults (items_of signatures.now) around (return_of at (option_map view_expr value.now))) }
{
    match value {
        Some(value) => {
            let own = found_at(at, return_fault(around, type_in(value.get())));
            earlier(expr_fault(signatures, around, true, value.get()), own)
        }
        None => found_at(at, return_nothing_fault(around)),
    }
}

#[cycle(walk)]
#[tactic(auto, using(crate::proofs::WalkLaws::stmts))]
fn stmt_fault(signatures: &Signatures<'_>, around: Around, stmt: &Stmt) -> Option<Fault>
    ensures { result ≡ first_of (f.stmt_faults (items_of signatures.now) around (view_stmt stmt.now)) }
{
    match stmt {
        Stmt::Declare(_, _, value) | Stmt::Destructure(_, _, _, value) => {
            expr_fault(signatures, around, true, value)
        }
        Stmt::Return(at, value) => returned_fault(signatures, around, *at, value),
        Stmt::While(_, condition, block) => {
            let body = block_fault(signatures, around, block);
            earlier(expr_fault(signatures, around, true, condition), body)
        }
        Stmt::Foreach(_, _, from, to, block) => {
            let body = block_fault(signatures, around, block);
            let later = earlier(expr_fault(signatures, around, true, to), body);
            earlier(expr_fault(signatures, around, true, from), later)
        }
        Stmt::Form(form) => form_fault(signatures, around, form),
        Stmt::Express(value) => expr_fault(signatures, around, true, value),
    }
}
