// Expressions, statements and blocks. A depth is that of the line that a part stands in.
ghost use Rattle.std.specs.Prelude.{◌≡◌, ◌++◌, map, OnOk};
ghost use Rattle.vale_syntax.specs.Canon.{rendered};
ghost use Rattle.vale_syntax.specs.Layout as l;
ghost use Rattle.vale_syntax.specs.View.{exprs_of, view_expr, view_form, view_step, view_stmt, view_block, view_else_if, view_link};
ghost use Rattle.vale_syntax.specs.declared.token.Sign.TheVariants.{OpenParen, CloseParen};

use crate::operators::{
    after_word, assign, binary_op, close_block, else_if_words, loop_head, truth, unary_op,
};
use crate::pieces::{
    comma_gap, deeper, gap, member, named, new_line, number, quote, sign, word, word_gap,
};
use crate::types::{brackets, name_list, type_expr};
use vale_base::{Memory, Text};
use vale_syntax::{Block, ElseIf, Expr, Form, Link, Sign, Step, Stmt, Word};

#[cycle(exprs)]
fn expr(names: &[Text], depth: usize, text: &mut Vec<u8>, e: &Expr) -> Result<(), Memory>
    ensures { OnOk result (text.new.items ≡ text.old.items ++ rendered (l.lay_expr names.now depth (view_expr e.now))) }
{
    match e {
        Expr::Set(_, place, value) => {
            word(text, Word::Set)?;
            after_word(text, place.get())?;
            expr(names, depth, text, place.get())?;
            assign(text)?;
            expr(names, depth, text, value.get())
        }
        Expr::Chain(first, links) => {
            expr(names, depth, text, first.get())?;
            more_operands(names, depth, text, links.as_slice())
        }
        Expr::Unary(_, op, operand) => {
            unary_op(text, *op, operand.get())?;
            expr(names, depth, text, operand.get())
        }
        Expr::Steps(base, steps) => {
            expr(names, depth, text, base.get())?;
            all_steps(names, depth, text, steps.as_slice())
        }
        Expr::Number(_, n) => number(text, *n),
        Expr::Quote(_, bytes) => quote(text, bytes.as_slice()),
        Expr::Truth(_, b) => truth(text, *b),
        Expr::Name(name) => named(names, text, *name),
        Expr::Call(name, args) => {
            named(names, text, *name)?;
            args_in_parens(names, depth, text, args.as_slice())
        }
        Expr::Paren(_, inner) => {
            sign(text, Sign::OpenParen)?;
            expr(names, depth, text, inner.get())?;
            sign(text, Sign::CloseParen)
        }
        Expr::Array(_, ty, elements) => {
            brackets(text)?;
            type_expr(names, text, ty)?;
            args_in_parens(names, depth, text, elements.as_slice())
        }
        Expr::Iso(_, b) => {
            word_gap(text, Word::Iso)?;
            block(names, depth, text, b)
        }
        Expr::Form(f) => form(names, depth, text, f.get()),
    }
}

#[cycle(exprs)]
fn args_in_parens(
    names: &[Text],
    depth: usize,
    text: &mut Vec<u8>,
    args: &[Expr],
) -> Result<(), Memory>
    ensures { OnOk result (text.new.items ≡ text.old.items ++ rendered (l.mark OpenParen ++ l.lay_args names.now depth (exprs_of (map view_expr args.now)) ++ l.mark CloseParen)) }
{
    sign(text, Sign::OpenParen)?;
    all_args(names, depth, text, args)?;
    sign(text, Sign::CloseParen)
}

#[cycle(exprs)]
#[tactic(auto, using(crate::proofs::EachLaws::each_more))]
fn all_args(names: &[Text], depth: usize, text: &mut Vec<u8>, args: &[Expr]) -> Result<(), Memory>
    ensures { OnOk result (text.new.items ≡ text.old.items ++ rendered (l.with_commas (λ x. l.lay_expr names.now depth (view_expr x)) args.now)) }
{
    let [first, more @ ..] = args else {
        return Ok(());
    };
    expr(names, depth, text, first)?;
    for arg in more {
        comma_gap(text)?;
        expr(names, depth, text, arg)?;
    }
    Ok(())
}

#[cycle(exprs)]
#[tactic(auto, using(crate::proofs::EachLaws::each_more, crate::proofs::ExprLaws::of_link))]
fn more_operands(
    names: &[Text],
    depth: usize,
    text: &mut Vec<u8>,
    links: &[Link],
) -> Result<(), Memory>
    ensures { OnOk result (text.new.items ≡ text.old.items ++ rendered (l.each (λ x. l.lay_link names.now depth (view_link x)) links.now)) }
{
    for link in links {
        binary_op(text, link.op)?;
        expr(names, depth, text, &link.operand)?;
    }
    Ok(())
}

#[cycle(exprs)]
#[tactic(auto, using(crate::proofs::EachLaws::each_more))]
fn all_steps(names: &[Text], depth: usize, text: &mut Vec<u8>, steps: &[Step]) -> Result<(), Memory>
    ensures { OnOk result (text.new.items ≡ text.old.items ++ rendered (l.each (λ x. l.lay_step names.now depth (view_step x)) steps.now)) }
{
    for x in steps {
        step(names, depth, text, x)?;
    }
    Ok(())
}

#[cycle(exprs)]
fn step(names: &[Text], depth: usize, text: &mut Vec<u8>, x: &Step) -> Result<(), Memory>
    ensures { OnOk result (text.new.items ≡ text.old.items ++ rendered (l.lay_step names.now depth (view_step x.now))) }
{
    match x {
        Step::Field(_, name) => {
            sign(text, Sign::Dot)?;
            member(names, text, *name)
        }
        Step::Method(_, name, args) => {
            sign(text, Sign::Dot)?;
            member(names, text, *name)?;
            args_in_parens(names, depth, text, args.as_slice())
        }
        Step::Index(_, e) => {
            sign(text, Sign::OpenBracket)?;
            expr(names, depth, text, e)?;
            sign(text, Sign::CloseBracket)
        }
    }
}

#[cycle(exprs)]
fn form(names: &[Text], depth: usize, text: &mut Vec<u8>, f: &Form) -> Result<(), Memory>
    ensures { OnOk result (text.new.items ≡ text.old.items ++ rendered (l.lay_form names.now depth (view_form f.now))) }
{
    match f {
        Form::If(_, condition, b, else_ifs, otherwise) => {
            word(text, Word::If)?;
            after_word(text, condition)?;
            expr(names, depth, text, condition)?;
            gap(text)?;
            block(names, depth, text, b)?;
            all_else_ifs(names, depth, text, else_ifs.as_slice())?;
            match otherwise {
                None => Ok(()),
                Some(b) => {
                    gap(text)?;
                    word_gap(text, Word::Else)?;
                    block(names, depth, text, b)
                }
            }
        }
        Form::Pure(_, b) => {
            word_gap(text, Word::Pure)?;
            block(names, depth, text, b)
        }
        Form::ParallelRange(_, name, from, to, b) => {
            word_gap(text, Word::Parallel)?;
            loop_head(names, text, *name)?;
            expr(names, depth, text, from)?;
            sign(text, Sign::DotDot)?;
            expr(names, depth, text, to)?;
            gap(text)?;
            block(names, depth, text, b)
        }
        Form::ParallelEach(_, name, isolates, b) => {
            word_gap(text, Word::Parallel)?;
            loop_head(names, text, *name)?;
            expr(names, depth, text, isolates)?;
            gap(text)?;
            block(names, depth, text, b)
        }
    }
}

#[cycle(exprs)]
#[tactic(auto, using(crate::proofs::EachLaws::each_more))]
fn all_else_ifs(
    names: &[Text],
    depth: usize,
    text: &mut Vec<u8>,
    else_ifs: &[ElseIf],
) -> Result<(), Memory>
    ensures { OnOk result (text.new.items ≡ text.old.items ++ rendered (l.each (λ x. l.lay_else_if names.now depth (view_else_if x)) else_ifs.now)) }
{
    for x in else_ifs {
        else_if(names, depth, text, x)?;
    }
    Ok(())
}

#[cycle(exprs)]
fn else_if(names: &[Text], depth: usize, text: &mut Vec<u8>, x: &ElseIf) -> Result<(), Memory>
    ensures { OnOk result (text.new.items ≡ text.old.items ++ rendered (l.lay_else_if names.now depth (view_else_if x.now))) }
{
    else_if_words(text)?;
    after_word(text, &x.condition)?;
    expr(names, depth, text, &x.condition)?;
    gap(text)?;
    block(names, depth, text, &x.block)
}

#[cycle(exprs)]
pub fn block(names: &[Text], depth: usize, text: &mut Vec<u8>, b: &Block) -> Result<(), Memory>
    ensures { OnOk result (text.new.items ≡ text.old.items ++ rendered (l.lay_block names.now depth (view_block b.now))) }
{
    sign(text, Sign::OpenBrace)?;
    let inner = deeper(depth)?;
    all_stmts(names, inner, text, b.stmts.as_slice())?;
    match &b.last {
        None => close_block(text, depth),
        Some(e) => {
            new_line(text, inner)?;
            expr(names, inner, text, e.get())?;
            close_block(text, depth)
        }
    }
}

#[cycle(exprs)]
#[tactic(auto, using(crate::proofs::EachLaws::each_more))]
fn all_stmts(names: &[Text], depth: usize, text: &mut Vec<u8>, stmts: &[Stmt]) -> Result<(), Memory>
    ensures { OnOk result (text.new.items ≡ text.old.items ++ rendered (l.each (λ x. l.new_line depth ++ l.lay_stmt names.now depth (view_stmt x)) stmts.now)) }
{
    for x in stmts {
        new_line(text, depth)?;
        stmt(names, depth, text, x)?;
    }
    Ok(())
}

#[cycle(exprs)]
fn stmt(names: &[Text], depth: usize, text: &mut Vec<u8>, x: &Stmt) -> Result<(), Memory>
    ensures { OnOk result (text.new.items ≡ text.old.items ++ rendered (l.lay_stmt names.now depth (view_stmt x.now))) }
{
    match x {
        Stmt::Declare(name, e) => {
            named(names, text, *name)?;
            assign(text)?;
            expr(names, depth, text, e)?;
            sign(text, Sign::Semicolon)
        }
        Stmt::Destructure(_, list, e) => {
            sign(text, Sign::OpenBracket)?;
            name_list(names, text, list.as_slice())?;
            sign(text, Sign::CloseBracket)?;
            assign(text)?;
            expr(names, depth, text, e)?;
            sign(text, Sign::Semicolon)
        }
        Stmt::Return(_, None) => {
            word(text, Word::Return)?;
            sign(text, Sign::Semicolon)
        }
        Stmt::Return(_, Some(e)) => {
            word(text, Word::Return)?;
            after_word(text, e.get())?;
            expr(names, depth, text, e.get())?;
            sign(text, Sign::Semicolon)
        }
        Stmt::While(_, condition, b) => {
            word(text, Word::While)?;
            after_word(text, condition)?;
            expr(names, depth, text, condition)?;
            gap(text)?;
            block(names, depth, text, b)
        }
        Stmt::Foreach(_, name, from, to, b) => {
            loop_head(names, text, *name)?;
            expr(names, depth, text, from)?;
            sign(text, Sign::DotDot)?;
            expr(names, depth, text, to)?;
            gap(text)?;
            block(names, depth, text, b)
        }
        Stmt::Form(f) => form(names, depth, text, f),
        Stmt::Express(e) => {
            expr(names, depth, text, e)?;
            sign(text, Sign::Semicolon)
        }
    }
}
