// Whether a program has interfaces, implementations or calls of methods, which the phases don't judge yet.
ghost use Rattle.std.specs.Prelude.{◌≡◌, ◌||◌, None, map, option_map};
ghost use Rattle.vale_syntax.specs.View.{view_expr, view_form, view_step, view_stmt, view_block, view_else_if, view_link, view_item, view_tree, exprs_of, links_of, steps_of, elses_of, else_end, stmts_of, last_end};
ghost use Rattle.vale_front.specs.Interfaces as m;

use sqlite_items::Boxed;
use vale_syntax::{Block, ElseIf, Expr, Form, Item, Link, Step, Stmt, Tree};

// Both are looked at first, so that their parts are walked one after another.
fn either(one: bool, other: bool) -> bool
    ensures { result ≡ (one || other) }
{
    one || other
}

#[cycle(interfaces)]
#[tactic(auto, using(crate::proofs::Rules::exprs))]
fn in_expr(expr: &Expr) -> bool
    ensures { result ≡ m.in_expr (view_expr expr.now) }
{
    match expr {
        Expr::Set(_, place, value) => { either(in_expr(place.get()), in_expr(value.get())) }
        Expr::Chain(first, links) => {
            let links = in_links(links.as_slice());
            either(in_expr(first.get()), links)
        }
        Expr::Unary(_, _, operand) => in_expr(operand.get()),
        Expr::Steps(base, steps) => {
            let steps = in_steps(steps.as_slice());
            either(in_expr(base.get()), steps)
        }
        Expr::Number(..) | Expr::Quote(..) | Expr::Truth(..) | Expr::Name(_) => false,
        Expr::Call(_, args) => in_exprs(args.as_slice()),
        Expr::Paren(_, inner) => in_expr(inner.get()),
        Expr::Array(_, _, args) => in_exprs(args.as_slice()),
        Expr::Iso(_, block) => in_block(block),
        Expr::Form(form) => in_form(form.get()),
    }
}

#[cycle(interfaces)]
#[tactic(auto, using(crate::proofs::Rules::lists))]
fn in_exprs(exprs: &[Expr]) -> bool
    ensures { result ≡ m.in_exprs (exprs_of (map view_expr exprs.now)) }
{
    let mut found = false;
    for expr in exprs {
        found = either(found, in_expr(expr));
    }
    found
}

#[cycle(interfaces)]
#[tactic(auto, using(crate::proofs::Rules::links))]
fn in_link(link: &Link) -> bool
    ensures { result ≡ m.in_link (view_link link.now) }
{
    in_expr(&link.operand)
}

#[cycle(interfaces)]
#[tactic(auto, using(crate::proofs::Rules::lists))]
fn in_links(links: &[Link]) -> bool
    ensures { result ≡ m.in_links (links_of (map view_link links.now)) }
{
    let mut found = false;
    for link in links {
        found = either(found, in_link(link));
    }
    found
}

#[cycle(interfaces)]
#[tactic(auto, using(crate::proofs::Rules::steps))]
fn in_step(step: &Step) -> bool
    ensures { result ≡ m.in_step (view_step step.now) }
{
    match step {
        Step::Field(..) => false,
        Step::Method(..) => true,
        Step::Index(_, index) => in_expr(index),
    }
}

#[cycle(interfaces)]
#[tactic(auto, using(crate::proofs::Rules::lists))]
fn in_steps(steps: &[Step]) -> bool
    ensures { result ≡ m.in_steps (steps_of (map view_step steps.now)) }
{
    let mut found = false;
    for step in steps {
        found = either(found, in_step(step));
    }
    found
}

#[cycle(interfaces)]
#[tactic(auto, using(crate::proofs::Rules::forms))]
fn in_form(form: &Form) -> bool
    ensures { result ≡ m.in_form (view_form form.now) }
{
    match form {
        Form::If(_, condition, block, else_ifs, otherwise) => {
            let more = either(in_else_ifs(else_ifs.as_slice()), in_else(otherwise));
            either(in_expr(condition), either(in_block(block), more))
        }
        Form::Pure(_, block) => in_block(block),
        Form::ParallelRange(_, _, from, to, block) => {
            either(in_expr(from), either(in_expr(to), in_block(block)))
        }
        Form::ParallelEach(_, _, over, block) => { either(in_expr(over), in_block(block)) }
    }
}

#[cycle(interfaces)]
#[tactic(auto, using(crate::proofs::Rules::forms))]
fn in_else_if(else_if: &ElseIf) -> bool
    ensures { result ≡ m.in_else_if (view_else_if else_if.now) }
{
    either(in_expr(&else_if.condition), in_block(&else_if.block))
}

#[cycle(interfaces)]
#[tactic(auto, using(crate::proofs::Rules::lists))]
fn in_else_ifs(else_ifs: &[ElseIf]) -> bool
    ensures { result ≡ m.in_elses (elses_of (map view_else_if else_ifs.now) None) }
{
    let mut found = false;
    for else_if in else_ifs {
        found = either(found, in_else_if(else_if));
    }
    found
}

#[cycle(interfaces)]
fn in_else(otherwise: &Option<Block>) -> bool
    ensures { result ≡ m.in_elses (else_end (option_map view_block otherwise.now)) }
{
    match otherwise {
        Some(block) => in_block(block),
        None => false,
    }
}

#[cycle(interfaces)]
#[tactic(auto, using(crate::proofs::Rules::blocks))]
fn in_block(block: &Block) -> bool
    ensures { result ≡ m.in_block (view_block block.now) }
{
    either(in_stmts(block.stmts.as_slice()), in_last(&block.last))
}

#[cycle(interfaces)]
#[tactic(auto, using(crate::proofs::Rules::lists))]
fn in_stmts(stmts: &[Stmt]) -> bool
    ensures { result ≡ m.in_stmts (stmts_of (map view_stmt stmts.now) None) }
{
    let mut found = false;
    for stmt in stmts {
        found = either(found, in_stmt(stmt));
    }
    found
}

#[cycle(interfaces)]
fn in_last(last: &Option<Boxed<Expr>>) -> bool
    ensures { result ≡ m.in_stmts (last_end (option_map view_expr last.now)) }
{
    match last {
        Some(value) => in_expr(value.get()),
        None => false,
    }
}

#[cycle(interfaces)]
#[tactic(auto, using(crate::proofs::Rules::stmts))]
fn in_stmt(stmt: &Stmt) -> bool
    ensures { result ≡ m.in_stmt (view_stmt stmt.now) }
{
    match stmt {
        Stmt::Declare(_, value) => in_expr(value),
        Stmt::Destructure(_, _, value) => in_expr(value),
        Stmt::Return(_, None) => false,
        Stmt::Return(_, Some(value)) => in_expr(value.get()),
        Stmt::While(_, condition, block) => either(in_expr(condition), in_block(block)),
        Stmt::Foreach(_, _, from, to, block) => {
            either(in_expr(from), either(in_expr(to), in_block(block)))
        }
        Stmt::Form(form) => in_form(form),
        Stmt::Express(value) => in_expr(value),
    }
}

fn in_item(item: &Item) -> bool
    ensures { result ≡ m.in_item (view_item item.now) }
{
    match item {
        Item::Struct(..) => false,
        Item::Interface(..) | Item::Impl(..) => true,
        Item::Function(function) => in_block(&function.body),
    }
}

#[tactic(auto, using(crate::proofs::Rules::lists))]
fn in_items(items: &[Item]) -> bool
    ensures { result ≡ m.in_items (map view_item items.now) }
{
    let mut found = false;
    for item in items {
        found = either(found, in_item(item));
    }
    found
}

/// Whether the program has interfaces, implementations or calls of methods.
pub fn has_interfaces(tree: &Tree) -> bool
    ensures { result ≡ m.has_interfaces (view_tree tree.now) }
{
    in_items(tree.items.as_slice())
}
