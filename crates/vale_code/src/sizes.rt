//! Whether the lists of a code are short enough to be numbered.

ghost use Rattle.std.specs.Prelude.{◌≡◌, ◌↔◌, ◌+◌, IsTrue};
ghost use Rattle.std.specs.List.{list_all};
ghost use Rattle.vale_code.specs.Sizes.{is_few, text_is_small, method_is_small, kind_is_small, impl_is_small, instr_is_small, func_is_small, instructions, parts_limit, IsSmall};

use crate::{Func, Impl, Instr, KindInfo, MethodInfo};
use vale_base::Text;

// The number of parts that no list has.
const PARTS_LIMIT: usize = 4_294_967_296;

fn is_few(count: usize) -> bool
    ensures { result ≡ is_few count }
{
    count < PARTS_LIMIT
}

fn texts_are_small(texts: &[Text]) -> bool
    ensures { result ≡ list_all text_is_small texts.now }
{
    for text in texts {
        if !is_few(text.len()) {
            return false;
        }
    }
    true
}

fn methods_are_small(methods: &[MethodInfo]) -> bool
    ensures { result ≡ list_all method_is_small methods.now }
{
    for method in methods {
        if !is_few(method.params.len()) {
            return false;
        }
    }
    true
}

fn kind_is_small(kind: &KindInfo) -> bool
    ensures { result ≡ kind_is_small kind.now }
{
    match kind {
        KindInfo::Struct { fields, .. } => is_few(fields.len()),
        KindInfo::Interface { methods, .. } => {
            is_few(methods.len()) && methods_are_small(methods.as_slice())
        }
        KindInfo::Array { .. } => true,
    }
}

fn kinds_are_small(kinds: &[KindInfo]) -> bool
    ensures { result ≡ list_all kind_is_small kinds.now }
{
    for kind in kinds {
        if !kind_is_small(kind) {
            return false;
        }
    }
    true
}

fn impls_are_small(impls: &[Impl]) -> bool
    ensures { result ≡ list_all impl_is_small impls.now }
{
    for item in impls {
        if !is_few(item.funcs.len()) {
            return false;
        }
    }
    true
}

fn instr_is_small(instr: &Instr) -> bool
    ensures { result ≡ instr_is_small instr.now }
{
    match instr {
        Instr::Call { args, .. }
        | Instr::CallM { args, .. }
        | Instr::CallMLive { args, .. }
        | Instr::Make { args, .. }
        | Instr::ParRange { args, .. }
        | Instr::ParEach { args, .. } => is_few(args.len()),
        Instr::Open { to, .. } => is_few(to.len()),
        _ => true,
    }
}

fn body_is_small(body: &[Instr]) -> bool
    ensures { result ≡ list_all instr_is_small body.now }
{
    for instr in body {
        if !instr_is_small(instr) {
            return false;
        }
    }
    true
}

fn func_is_small(func: &Func) -> bool
    ensures { result ≡ func_is_small func.now }
{
    is_few(func.params.len()) && body_is_small(func.body.as_slice())
}

fn funcs_are_small(funcs: &[Func]) -> bool
    ensures { result ≡ list_all func_is_small funcs.now }
{
    for func in funcs {
        if !func_is_small(func) {
            return false;
        }
    }
    true
}

// Whether all instructions together are fewer than the limit.
fn instructions_are_few(funcs: &[Func]) -> bool
    ensures { result ≡ is_few (instructions funcs.now) }
{
    let mut room = PARTS_LIMIT;
    for func in funcs {
        let count = func.body.len();
        if count >= room {
            return false;
        }
        room -= count;
    }
    true
}

// Whether all kinds, implementations and functions together are fewer than the limit.
fn items_are_few(kinds: usize, impls: usize, funcs: usize) -> bool
    ensures { result ≡ is_few (kinds + impls + funcs) }
{
    kinds < PARTS_LIMIT
        && impls < PARTS_LIMIT
        && funcs < PARTS_LIMIT
        && kinds + impls + funcs < PARTS_LIMIT
}

/// Whether a code may have these lists.
pub fn is_small(texts: &[Text], kinds: &[KindInfo], impls: &[Impl], funcs: &[Func]) -> bool
    ensures { IsTrue result ↔ IsSmall texts.now kinds.now impls.now funcs.now }
{
    is_few(texts.len())
        && items_are_few(kinds.len(), impls.len(), funcs.len())
        && instructions_are_few(funcs)
        && texts_are_small(texts)
        && kinds_are_small(kinds)
        && impls_are_small(impls)
        && funcs_are_small(funcs)
}
