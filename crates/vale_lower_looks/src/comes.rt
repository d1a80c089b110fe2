// Whether a run may come behind a part.
ghost use Rattle.std.specs.Prelude.{◌≡◌, ◌&&◌, ◌||◌, true, None, map, option_map};
ghost use Rattle.vale_core.specs.View.{view_expr, view_node, view_form, view_step, view_stmt, view_block, view_else_if, view_link, exprs_of, links_of, steps_of, elses_of, else_end, stmts_of, last_end};
ghost use Rattle.vale_lower_looks.specs.Comes.{operand_comes, expr_comes, node_comes, based, place_comes, exprs_come, links_come, step_comes, steps_come, form_comes, elses_come, block_comes, stmts_come, stmt_comes};
ghost use Rattle.vale_lower_looks.specs.Parts.{link_comes, else_if_comes, else_ifs_come};

use sqlite_items::{Boxed, Items};
use vale_core::{Block, ElseIf, Expr, Form, Link, Node, Step, Stmt};
use vale_syntax::BinaryOp;

/// Whether a run may come behind the expression.
#[cycle(comes)]
#[tactic(auto, using(crate::proofs::ComeLaws::exprs))]
pub fn expr_comes(expr: &Expr) -> bool
    ensures { result ≡ expr_comes (view_expr expr.now) }
{
    node_comes(&expr.node)
}

#[cycle(comes)]
#[tactic(auto, using(crate::proofs::ComeLaws::nodes))]
fn node_comes(node: &Node) -> bool
    ensures { result ≡ node_comes (view_node node.now) }
{
    match node {
        Node::Set(_, place, value) => expr_comes(value.get()) && place_comes(place.get()),
        Node::Chain(first, links) => expr_comes(first.get()) && links_come(links),
        Node::Unary(_, _, operand) => expr_comes(operand.get()),
        Node::Steps(base, steps) => {
            let comes = expr_comes(base.get());
            let all = steps_come(steps);
            steps_from(comes, steps.as_slice(), all)
        }
        Node::Number(..) | Node::Quote(..) | Node::Truth(..) | Node::Name { .. } => true,
        Node::Call(_, _, args) => exprs_come(args.as_slice()),
        Node::Paren(_, inner) => expr_comes(inner.get()),
        Node::Array(_, _, elements) => exprs_come(elements.as_slice()),
        Node::Iso(_, block) => block_comes(block),
        Node::Form(form) => form_comes(form.get()),
    }
}

// Behind steps, by whether a run comes behind what they start from and behind them.
#[tactic(auto, using(crate::proofs::ComeLaws::bases))]
fn steps_from(base: bool, steps: &[Step], all: bool) -> bool
    ensures { all ≡ steps_come (steps_of (map view_step steps.now)) → result ≡ based base (steps_of (map view_step steps.now)) }
{
    if steps.is_empty() {
        return true;
    }
    base && all
}

// The place of a `set`.
#[cycle(comes)]
#[tactic(auto, using(crate::proofs::ComeLaws::places))]
fn place_comes(place: &Expr) -> bool
    ensures { result ≡ place_comes (view_expr place.now) }
{
    match &place.node {
        Node::Steps(base, steps) => {
            let comes = expr_comes(base.get());
            let all = steps_come(steps);
            steps_from(comes, steps.as_slice(), all)
        }
        Node::Set(..)
        | Node::Chain(..)
        | Node::Unary(..)
        | Node::Number(..)
        | Node::Quote(..)
        | Node::Truth(..)
        | Node::Name { .. }
        | Node::Call(..)
        | Node::Paren(..)
        | Node::Array(..)
        | Node::Iso(..)
        | Node::Form(..) => true,
    }
}

#[cycle(comes)]
#[tactic(auto, using(crate::proofs::ComeLaws::lists))]
fn exprs_come(exprs: &[Expr]) -> bool
    ensures { result ≡ exprs_come (exprs_of (map view_expr exprs.now)) }
{
    for expr in exprs {
        if !expr_comes(expr) {
            return false;
        }
    }
    true
}

#[cycle(comes)]
#[tactic(auto, using(crate::proofs::ComeLaws::links))]
fn link_comes(link: &Link) -> bool
    ensures { result ≡ link_comes (view_link link.now) }
{
    match link.op {
        BinaryOp::Or | BinaryOp::And => true,
        _ => expr_comes(&link.operand),
    }
}

#[cycle(comes)]
#[tactic(auto, using(crate::proofs::ComeLaws::lists))]
fn links_come(links: &Items<Link>) -> bool
    ensures { result ≡ links_come (links_of (map view_link links.now)) }
{
    let slice = links.as_slice();
    for link in slice {
        if !link_comes(link) {
            return false;
        }
    }
    true
}

#[cycle(comes)]
#[tactic(auto, using(crate::proofs::ComeLaws::steps))]
fn step_comes(step: &Step) -> bool
    ensures { result ≡ step_comes (view_step step.now) }
{
    match step {
        Step::Field(..) | Step::Method(..) => true,
        Step::Index(_, _, _, index) => expr_comes(index),
    }
}

#[cycle(comes)]
#[tactic(auto, using(crate::proofs::ComeLaws::lists))]
fn steps_come(steps: &Items<Step>) -> bool
    ensures { result ≡ steps_come (steps_of (map view_step steps.now)) }
{
    let slice = steps.as_slice();
    for step in slice {
        if !step_comes(step) {
            return false;
        }
    }
    true
}

fn branch_comes(condition: bool, inside: bool, rest: bool) -> bool
    ensures { result ≡ (condition && (inside || rest)) }
{
    condition && (inside || rest)
}

#[cycle(comes)]
#[tactic(auto, using(crate::proofs::ComeLaws::forms))]
fn form_comes(form: &Form) -> bool
    ensures { result ≡ form_comes (view_form form.now) }
{
    match form {
        Form::If(_, condition, block, else_ifs, otherwise) => {
            let rest = else_ifs_come(else_ifs, else_comes(otherwise));
            let inside = block_comes(block);
            branch_comes(expr_comes(condition), inside, rest)
        }
        Form::Pure(_, block) => block_comes(block),
        Form::ParallelRange(..) | Form::ParallelEach(..) => true,
    }
}

// Behind one of them, or behind what stands after them.
#[cycle(comes)]
#[tactic(auto, using(crate::proofs::ComeLaws::backs))]
fn else_ifs_come(else_ifs: &Items<ElseIf>, rest: bool) -> bool
    ensures { result ≡ else_ifs_come (map view_else_if else_ifs.now) rest }
{
    let slice = else_ifs.as_slice();
    let mut comes = rest;
    for back in 0..slice.len() {
        let at = slice.len() - 1 - back;
        comes = else_if_comes(&slice[at], comes);
    }
    comes
}

#[cycle(comes)]
#[tactic(auto, using(crate::proofs::ComeLaws::links))]
fn else_if_comes(else_if: &ElseIf, rest: bool) -> bool
    ensures { result ≡ else_if_comes (view_else_if else_if.now) rest }
{
    expr_comes(&else_if.condition) && (block_comes(&else_if.block) || rest)
}

#[cycle(comes)]
fn else_comes(otherwise: &Option<Block>) -> bool
    ensures { result ≡ elses_come (else_end (option_map view_block otherwise.now)) }
{
    match otherwise {
        Some(block) => block_comes(block),
        None => true,
    }
}

#[cycle(comes)]
#[tactic(auto, using(crate::proofs::ComeLaws::blocks))]
fn block_comes(block: &Block) -> bool
    ensures { result ≡ block_comes (view_block block.now) }
{
    stmts_come(block.stmts.as_slice()) && last_comes(&block.last)
}

#[cycle(comes)]
#[tactic(auto, using(crate::proofs::ComeLaws::lists))]
fn stmts_come(stmts: &[Stmt]) -> bool
    ensures { result ≡ stmts_come (stmts_of (map view_stmt stmts.now) None) }
{
    for stmt in stmts {
        if !stmt_comes(stmt) {
            return false;
        }
    }
    true
}

#[cycle(comes)]
fn last_comes(last: &Option<Boxed<Expr>>) -> bool
    ensures { result ≡ stmts_come (last_end (option_map view_expr last.now)) }
{
    match last {
        Some(value) => expr_comes(value.get()),
        None => true,
    }
}

#[cycle(comes)]
#[tactic(auto, using(crate::proofs::ComeLaws::stmts))]
fn stmt_comes(stmt: &Stmt) -> bool
    ensures { result ≡ stmt_comes (view_stmt stmt.now) }
{
    match stmt {
        Stmt::Declare(_, _, value) => expr_comes(value),
        Stmt::Destructure(_, _, _, value) => expr_comes(value),
        Stmt::Return(_, None) => false,
        Stmt::Return(_, Some(_)) => false,
        Stmt::While(_, condition, _) => expr_comes(condition),
        Stmt::Foreach(_, _, from, to, _) => expr_comes(from) && expr_comes(to),
        Stmt::Form(form) => form_comes(form),
        Stmt::Express(value) => expr_comes(value),
    }
}
