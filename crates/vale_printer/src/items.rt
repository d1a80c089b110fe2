// Items, and the whole text.
ghost use Rattle.std.specs.Prelude.{◌≡◌, ◌++◌, map, option_map, IfOk, OnOk};
ghost use Rattle.vale_syntax.specs.Canon.{canon, rendered};
ghost use Rattle.vale_syntax.specs.Layout as l;
ghost use Rattle.vale_syntax.specs.View.{view_type, view_param, view_head, view_function, view_field, view_item, view_tree};
ghost use Rattle.vale_syntax.specs.declared.token.Sign.TheVariants as s;
ghost use Rattle.vale_syntax.specs.declared.token.Word.TheVariants as w;

use crate::exprs::block;
use crate::operators::close_block;
use crate::pieces::{comma_gap, gap, named, new_line, sign, word_gap};
use crate::types::type_expr;
use std::alloc::Global;
use vale_base::{Memory, Text};
use vale_syntax::{FieldDecl, Function, Head, Item, Param, Sign, Tree, TypeExpr, Word};

fn param(names: &[Text], text: &mut Vec<u8>, x: &Param) -> Result<(), Memory>
    ensures { OnOk result (text.new.items ≡ text.old.items ++ rendered (l.lay_param names.now (view_param x.now))) }
{
    named(names, text, x.name)?;
    gap(text)?;
    type_expr(names, text, &x.ty)
}

#[tactic(auto, using(crate::proofs::EachLaws::each_more))]
fn param_list(names: &[Text], text: &mut Vec<u8>, params: &[Param]) -> Result<(), Memory>
    ensures { OnOk result (text.new.items ≡ text.old.items ++ rendered (l.with_commas (λ x. l.lay_param names.now (view_param x)) params.now)) }
{
    let [first, more @ ..] = params else {
        return Ok(());
    };
    param(names, text, first)?;
    for x in more {
        comma_gap(text)?;
        param(names, text, x)?;
    }
    Ok(())
}

/// `pure` and one space, where a head is pure.
fn purity(text: &mut Vec<u8>, is_pure: bool) -> Result<(), Memory>
    ensures { OnOk result (text.new.items ≡ text.old.items ++ rendered (l.when is_pure (l.key w.Pure ++ l.gap))) }
{
    if is_pure {
        return word_gap(text, Word::Pure);
    }
    Ok(())
}

/// `!`, where a field may be set.
fn bang(text: &mut Vec<u8>, may_be_set: bool) -> Result<(), Memory>
    ensures { OnOk result (text.new.items ≡ text.old.items ++ rendered (l.when may_be_set (l.mark s.Bang))) }
{
    if may_be_set {
        return sign(text, Sign::Bang);
    }
    Ok(())
}

/// One space and the result type, where there is one.
fn result_type(names: &[Text], text: &mut Vec<u8>, ty: &Option<TypeExpr>) -> Result<(), Memory>
    ensures { OnOk result (text.new.items ≡ text.old.items ++ rendered (l.optional (λ x. l.gap ++ l.lay_type names.now x) (option_map view_type ty.now))) }
{
    match ty {
        None => Ok(()),
        Some(ty) => {
            gap(text)?;
            type_expr(names, text, ty)
        }
    }
}

#[tactic(auto, using(crate::proofs::EachLaws::with_commas_map))]
fn head(names: &[Text], text: &mut Vec<u8>, x: &Head) -> Result<(), Memory>
    ensures { OnOk result (text.new.items ≡ text.old.items ++ rendered (l.lay_head names.now (view_head x.now))) }
{
    purity(text, x.is_pure)?;
    word_gap(text, Word::Func)?;
    named(names, text, x.name)?;
    sign(text, Sign::OpenParen)?;
    param_list(names, text, x.params.as_slice())?;
    sign(text, Sign::CloseParen)?;
    result_type(names, text, &x.result)
}

fn function(names: &[Text], depth: usize, text: &mut Vec<u8>, x: &Function) -> Result<(), Memory>
    ensures { OnOk result (text.new.items ≡ text.old.items ++ rendered (l.lay_function names.now depth (view_function x.now))) }
{
    head(names, text, &x.head)?;
    gap(text)?;
    block(names, depth, text, &x.body)
}

fn field(names: &[Text], text: &mut Vec<u8>, x: &FieldDecl) -> Result<(), Memory>
    ensures { OnOk result (text.new.items ≡ text.old.items ++ rendered (l.lay_field names.now (view_field x.now))) }
{
    named(names, text, x.name)?;
    bang(text, x.may_be_set)?;
    gap(text)?;
    type_expr(names, text, &x.ty)?;
    sign(text, Sign::Semicolon)
}

#[tactic(auto, using(crate::proofs::EachLaws::each_more))]
fn all_fields(names: &[Text], text: &mut Vec<u8>, fields: &[FieldDecl]) -> Result<(), Memory>
    ensures { OnOk result (text.new.items ≡ text.old.items ++ rendered (l.each (λ x. l.new_line 1 ++ l.lay_field names.now (view_field x)) fields.now)) }
{
    for x in fields {
        new_line(text, 1)?;
        field(names, text, x)?;
    }
    Ok(())
}

#[tactic(auto, using(crate::proofs::EachLaws::each_more))]
fn all_heads(names: &[Text], text: &mut Vec<u8>, heads: &[Head]) -> Result<(), Memory>
    ensures { OnOk result (text.new.items ≡ text.old.items ++ rendered (l.each (λ x. l.new_line 1 ++ (l.lay_head names.now (view_head x) ++ l.mark s.Semicolon)) heads.now)) }
{
    for x in heads {
        new_line(text, 1)?;
        head(names, text, x)?;
        sign(text, Sign::Semicolon)?;
    }
    Ok(())
}

#[tactic(auto, using(crate::proofs::EachLaws::each_more))]
fn all_methods(names: &[Text], text: &mut Vec<u8>, methods: &[Function]) -> Result<(), Memory>
    ensures { OnOk result (text.new.items ≡ text.old.items ++ rendered (l.each (λ x. l.new_line 1 ++ l.lay_function names.now 1 (view_function x)) methods.now)) }
{
    for x in methods {
        new_line(text, 1)?;
        function(names, 1, text, x)?;
    }
    Ok(())
}

/// One space and `{`.
fn open_members(text: &mut Vec<u8>) -> Result<(), Memory>
    ensures { OnOk result (text.new.items ≡ text.old.items ++ rendered (l.gap ++ l.mark s.OpenBrace)) }
{
    gap(text)?;
    sign(text, Sign::OpenBrace)
}

#[tactic(auto, using(crate::proofs::EachLaws::each_map))]
fn item(names: &[Text], text: &mut Vec<u8>, x: &Item) -> Result<(), Memory>
    ensures { OnOk result (text.new.items ≡ text.old.items ++ rendered (l.lay_item names.now (view_item x.now))) }
{
    match x {
        Item::Struct(name, fields) => {
            word_gap(text, Word::Struct)?;
            named(names, text, *name)?;
            open_members(text)?;
            all_fields(names, text, fields.as_slice())?;
            close_block(text, 0)
        }
        Item::Interface(name, heads) => {
            word_gap(text, Word::Interface)?;
            named(names, text, *name)?;
            open_members(text)?;
            all_heads(names, text, heads.as_slice())?;
            close_block(text, 0)
        }
        Item::Impl(_, interface, of, methods) => {
            word_gap(text, Word::Impl)?;
            named(names, text, *interface)?;
            gap(text)?;
            word_gap(text, Word::For)?;
            named(names, text, *of)?;
            open_members(text)?;
            all_methods(names, text, methods.as_slice())?;
            close_block(text, 0)
        }
        Item::Function(f) => function(names, 0, text, f),
    }
}

#[tactic(auto, using(crate::proofs::EachLaws::each_more))]
fn all_items(names: &[Text], text: &mut Vec<u8>, items: &[Item]) -> Result<(), Memory>
    ensures { OnOk result (text.new.items ≡ text.old.items ++ rendered (l.each (λ x. l.lay_item names.now (view_item x) ++ l.new_line 0) items.now)) }
{
    for x in items {
        item(names, text, x)?;
        new_line(text, 0)?;
    }
    Ok(())
}

/// The tree's canonical text (docs/LANGUAGE.md, "Canonical text"). A name whose number is none of the tree's names has no
/// bytes; no tree that tokens spell has one.
#[tactic(auto, using(crate::proofs::EachLaws::each_map))]
pub fn print(alloc: Global, tree: &Tree) -> Result<Vec<u8>, Memory>
    ensures { IfOk result (λ text. text.items ≡ canon (view_tree tree.now)) }
{
    let mut text = Vec::new(alloc);
    all_items(tree.names.as_slice(), &mut text, tree.items.as_slice())?;
    Ok(text)
}
