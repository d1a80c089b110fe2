// The code of one function.
ghost use Rattle.std.specs.Prelude.{◌≡◌, ℕ, List, [], ◌+◌, max, length, map, IfOk};
ghost use Rattle.vale_rules_spec.specs.Declarations.{param_type};
ghost use Rattle.vale_rules_spec.specs.Types.{type_of, result_of};
ghost use Rattle.vale_syntax.specs.View.{view_type, view_param};
ghost use Rattle.std.specs.Option.{option_map};
ghost use Rattle.vale_core.specs.View.{view_block, view_function};
ghost use Rattle.vale_model.specs.Parts.{Parts, param_names};
ghost use Rattle.vale_lowering.specs.Lowered.{body_code, lowered_function, registers_in};
ghost use Rattle.vale_lowering.specs.Scopes.{parameters, code_type};
ghost use Rattle.vale_lower_expr.specs.Entries.{framed};
ghost use Rattle.vale_lower_expr.specs.Held.{texts_of, functions_of};
ghost use Rattle.vale_lower_expr.specs.Surroundings.{view_around};

use crate::walk::{Standing, emit_block};
use std::alloc::Global;
use vale_base::{Memory, Text};
use vale_code::{Func, Instr, Sequence, Ty};
use vale_core::{Block, Function};
use vale_lower_expr::{
    Around, CodeBuffer, Frame, Functions, Scope, Texts, above, gives_value, registers_in, text_of,
};
use vale_syntax::{Param, TypeExpr};

fn code_type(ty: &TypeExpr) -> Ty
    ensures { result ≡ code_type (type_of (view_type ty.now)) }
{
    match ty {
        TypeExpr::Int(_) => Ty::Int,
        TypeExpr::Bool(_) => Ty::Truth,
        TypeExpr::Str(_) => Ty::Text,
        TypeExpr::Named(_)
        | TypeExpr::Array(..)
        | TypeExpr::Ref(..)
        | TypeExpr::ImmRef(..)
        | TypeExpr::Iso(..) => Ty::Void,
    }
}

fn result_type(ty: &Option<TypeExpr>) -> Ty
    ensures { result ≡ code_type (result_of (option_map view_type ty.now)) }
{
    match ty {
        None => Ty::Void,
        Some(ty) => code_type(ty),
    }
}

fn param_types(alloc: Global, params: &[Param]) -> Result<Sequence<Ty>, Memory>
    ensures { IfOk result (λ types. types ≡ map (λ q. code_type (type_of (param_type q))) (map view_param params.now)) }
{
    let mut types = Sequence::new(alloc);
    for param in params {
        types.push(code_type(&param.ty))?;
    }
    Ok(types)
}

// The parameters have the first registers, in order.
#[tactic(auto, using(crate::proofs::FunctionLaws::param_laws))]
fn param_frame(alloc: Global, params: &[Param]) -> Result<Frame, Memory>
    ensures locals { IfOk result (λ f. framed f.locals.items [] ≡ parameters 0 (param_names (map view_param params.now)) []) }
    ensures next { IfOk result (λ f. f.next ≡ length (param_names (map view_param params.now))) }
{
    let mut frame = Frame::new(alloc, 0);
    for param in params {
        frame.declare(param.name.name)?;
    }
    Ok(frame)
}

// The code of a body, where the frame has the parameters.
fn emit_body(
    alloc: Global,
    frame: &Frame,
    block: &Block,
    around: &Around,
) -> Result<CodeBuffer, Memory>
    ensures { IfOk result (λ e. (ns : List ℕ) → length ns ≡ frame.now.next → framed frame.now.locals.items [] ≡ parameters 0 ns [] → e.code.items ≡ body_code (view_around around.now) ns (view_block block.now)) }
{
    let mut buffer = CodeBuffer::new(alloc);
    let to = frame.next;
    let next = above(to)?;
    let outside = Scope::Outside;
    let scope = Scope::Frame(&frame.locals, &outside);
    let here = Standing {
        next,
        scope: &scope,
        around: &*around,
    };
    emit_block(alloc, block, false, to, &here, &mut buffer)?;
    if around.gives {
        buffer.put(Instr::Ret { from: to })?;
        return Ok(buffer);
    }
    buffer.put(Instr::RetVoid)?;
    Ok(buffer)
}

// How many registers the function has.
fn register_count(params: u32, code: &[Instr]) -> Result<u32, Memory>
    ensures { IfOk result (λ n. n ≡ max (params + 1) (registers_in code.now)) }
{
    let named = registers_in(code);
    let own = u64::from(params) + 1;
    let count = if own < named { named } else { own };
    if count > u64::from(u32::MAX) {
        return Err(Memory);
    }
    Ok(count as u32)
}

/// The code of a function of a program with these names, texts and functions.
pub fn lower_function<'p>(
    alloc: Global,
    names: &[Text],
    texts: &'p Texts<'p>,
    functions: &'p Functions<'p>,
    function: &Function,
) -> Result<Func, Memory>
    ensures { IfOk result (λ f. (p : Parts) → p.names ≡ names.now → f ≡ lowered_function p (texts_of texts.now) (functions_of functions.now) (view_function function.now)) }
{
    let head = &function.head;
    let around = Around {
        texts,
        functions,
        gives: gives_value(&head.result),
    };
    let params = head.params.as_slice();
    let frame = param_frame(alloc, params)?;
    let buffer = emit_body(alloc, &frame, &function.body, &around)?;
    let registers = register_count(frame.next, &buffer.code)?;
    let form = if head.is_pure { 1 } else { 0 };
    Ok(Func {
        name: texts.number(text_of(names, head.name.name)),
        form,
        params: param_types(alloc, params)?,
        result: result_type(&head.result),
        registers,
        body: Sequence::from_vec(buffer.code),
    })
}
