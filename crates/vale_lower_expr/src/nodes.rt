// What is emitted of one node, after its parts.
ghost use Rattle.std.specs.Prelude.{◌≡◌, ◌++◌, ◌∷◌, [], ◌&&◌, not, length, OnOk};
ghost use Rattle.vale_core.specs.View.{view_expr, view_callee, view_ty};
ghost use Rattle.vale_code.specs.declared.instr.Instr.TheVariants as i;
ghost use Rattle.vale_lowering.specs.Instructions.{only_if, load, operator};
ghost use Rattle.vale_lowering.specs.Lowered.{call_code, callee_code, set_code, store_code};
ghost use Rattle.vale_lowering.specs.Scopes.{number_of_text, place_of};
ghost use Rattle.vale_lowering.specs.Texts.{is_lawful_text};
ghost use Rattle.vale_lower_expr.specs.Entries.{entries};
ghost use Rattle.vale_lower_expr.specs.Places.{place_named, is_set};
ghost use Rattle.vale_lower_expr.specs.Held.{texts_of};
ghost use Rattle.vale_lower_expr.specs.Surroundings.{view_around};

use crate::around::Around;
use crate::code_buffer::{CodeBuffer, above};
use crate::scope::{Scope, place_of};
use crate::shapes::{
    Call, operator, put_built_in, put_exchange, put_load, put_store, registers_from,
};
use crate::texts::Texts;
use std::alloc::Global;
use vale_base::{Memory, Name, Spot, TEXT_LIMIT, Text};
use vale_code::Instr;
use vale_core::{Callee, Expr, Node, Ty};
use vale_syntax::BinaryOp;

// Whether a `str` may have this text. Each byte of it is one.
#[tactic(auto, using(crate::proofs::NodeLaws::lawful_text))]
fn is_lawful(text: &Text) -> bool
    ensures { result ≡ is_lawful_text text.now }
{
    let bytes = text.as_slice();
    bytes.len() <= TEXT_LIMIT
}

/// A quote, where a value is wanted.
pub fn put_quote(
    buffer: &mut CodeBuffer,
    texts: &Texts,
    gives: bool,
    text: &Text,
    h: u32,
) -> Result<(), Memory>
    ensures { OnOk result (buffer.new.code.items ≡ buffer.old.code.items ++ only_if (gives && is_lawful_text text.now) h (i.Text h (number_of_text text.now (texts_of texts.now)) ∷ [])) }
{
    if !gives || !is_lawful(text) {
        return buffer.put_stuck(h);
    }
    let text = texts.number(text.as_slice());
    buffer.put(Instr::Text { to: h, text })
}

/// What a local holds, where a value is wanted and it isn't moved.
pub fn put_local(
    buffer: &mut CodeBuffer,
    scope: &Scope,
    gives: bool,
    moved: bool,
    name: Name,
    h: u32,
) -> Result<(), Memory>
    ensures { OnOk result (buffer.new.code.items ≡ buffer.old.code.items ++ only_if (gives && not moved) h (load (place_of name.0 (entries scope.now)) h)) }
{
    if !gives || moved {
        return buffer.put_stuck(h);
    }
    put_load(buffer, place_of(name, scope), h)
}

/// The register of the local that is set.
#[tactic(auto, using(crate::proofs::NodeLaws::places))]
fn place_named(place: &Expr, scope: &Scope) -> Option<u32>
    ensures { result ≡ place_named (view_expr place.now) (entries scope.now) }
{
    match &place.node {
        Node::Name { name, .. } => place_of(name.name, scope),
        Node::Set(..)
        | Node::Chain(..)
        | Node::Unary(..)
        | Node::Steps(..)
        | Node::Number(..)
        | Node::Quote(..)
        | Node::Truth(..)
        | Node::Call(..)
        | Node::Paren(..)
        | Node::Array(..)
        | Node::Iso(..)
        | Node::Form(..) => None,
    }
}

/// Whether it sets something.
#[tactic(auto, using(crate::proofs::NodeLaws::sets))]
pub fn is_set(expr: &Expr) -> bool
    ensures { result ≡ is_set (view_expr expr.now) }
{
    match &expr.node {
        Node::Set(..) => true,
        Node::Chain(..)
        | Node::Unary(..)
        | Node::Steps(..)
        | Node::Number(..)
        | Node::Quote(..)
        | Node::Truth(..)
        | Node::Name { .. }
        | Node::Call(..)
        | Node::Paren(..)
        | Node::Array(..)
        | Node::Iso(..)
        | Node::Form(..) => false,
    }
}

/// The set of a local, whose new value stands in the register.
#[tactic(auto, using(crate::proofs::NodeLaws::set_by_place))]
pub fn put_set(buffer: &mut CodeBuffer, place: &Expr, h: u32, scope: &Scope) -> Result<(), Memory>
    ensures { OnOk result (buffer.new.code.items ≡ buffer.old.code.items ++ set_code (view_expr place.now) h (entries scope.now)) }
{
    put_exchange(buffer, place_named(place, scope), h)
}

/// The same, where what the local held isn't used.
#[tactic(auto, using(crate::proofs::NodeLaws::store_by_place))]
pub fn put_set_only(
    buffer: &mut CodeBuffer,
    place: &Expr,
    h: u32,
    scope: &Scope,
) -> Result<(), Memory>
    ensures { OnOk result (buffer.new.code.items ≡ buffer.old.code.items ++ store_code (view_expr place.now) h (entries scope.now)) }
{
    put_store(buffer, place_named(place, scope), h)
}

/// The operator between a register and the next.
pub fn put_operator(
    buffer: &mut CodeBuffer,
    op: BinaryOp,
    ty: &Ty,
    at: Spot,
    h: u32,
) -> Result<(), Memory>
    ensures { OnOk result (buffer.new.code.items ≡ buffer.old.code.items ++ operator op (view_ty ty.now) at h ∷ []) }
{
    let next = above(h)?;
    buffer.put(operator(op, ty, at, h, next))
}

// A call of the first function of the name.
#[tactic(auto, using(crate::proofs::NodeLaws::call_by_number))]
fn put_call(
    alloc: Global,
    buffer: &mut CodeBuffer,
    around: &Around,
    call: Call,
) -> Result<(), Memory>
    ensures { OnOk result (buffer.new.code.items ≡ buffer.old.code.items ++ call_code (view_around around.now) call.gives call.name call.values call.first) }
{
    match around.functions.called(call.name.name, call.gives) {
        None => buffer.put_stuck(call.first),
        Some(func) => {
            let args = registers_from(alloc, call.first, call.values)?;
            buffer.put(Instr::Call {
                to: call.first,
                func,
                args,
                at: call.name.at,
            })
        }
    }
}

/// A call of what the name stands for.
pub fn put_callee(
    alloc: Global,
    buffer: &mut CodeBuffer,
    around: &Around,
    callee: Callee,
    call: Call,
) -> Result<(), Memory>
    ensures { OnOk result (buffer.new.code.items ≡ buffer.old.code.items ++ callee_code (view_around around.now) call.gives call.name (view_callee callee) call.values call.first) }
{
    match callee {
        Callee::BuiltIn(f) => put_built_in(buffer, f, call),
        Callee::Constructor => buffer.put_stuck(call.first),
        Callee::Function(_) => put_call(alloc, buffer, around, call),
    }
}
