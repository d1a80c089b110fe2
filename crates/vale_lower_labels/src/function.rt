// The facts of one function.
ghost use Rattle.std.specs.Prelude.{◌≡◌, ℕ, List, [], ◌+◌, length, map, false, is_some, IfOk};
ghost use Rattle.std.specs.Option.{option_map};
ghost use Rattle.vale_rules_spec.specs.Types.{result_of};
ghost use Rattle.vale_rules_spec.specs.Typed as t;
ghost use Rattle.vale_syntax.specs.View.{view_type, view_param};
ghost use Rattle.vale_core.specs.View.{view_block, view_function};
ghost use Rattle.vale_model.specs.Parts.{Parts, param_names};
ghost use Rattle.vale_lowering.specs.Lowered.{lowered_function};
ghost use Rattle.vale_lower_facts.specs.Marks.{value_type, param_slots, labels_from, last_of, function_marks, function_facts};
ghost use Rattle.vale_lower_labels.specs.Bodies.{body_marks, plain_of};
ghost use Rattle.vale_label_steps.specs.Progress.{progress, with_marks};
ghost use Rattle.vale_label_steps.specs.Standing.{framed};

use crate::walk::walk_block;
use std::alloc::Global;
use vale_base::Memory;
use vale_cert::{FuncFacts, Label};
use vale_code::{Sequence, Ty as CodeTy};
use vale_core::{Block, Function, block_returns};
use vale_label_steps::{Frame, Labels, Slots, Standing};
use vale_lower_expr::above;
use vale_seen::type_of;
use vale_syntax::{Param, TypeExpr};

// The code's type of what a function with this result gives, where it gives a value.
fn value_type(ty: &Option<TypeExpr>) -> Option<CodeTy>
    ensures { result ≡ value_type (result_of (option_map view_type ty.now)) }
{
    match ty {
        None => None,
        Some(TypeExpr::Int(_)) => Some(CodeTy::Int),
        Some(TypeExpr::Bool(_)) => Some(CodeTy::Truth),
        Some(TypeExpr::Str(_)) => Some(CodeTy::Text),
        Some(
            TypeExpr::Named(_)
            | TypeExpr::Array(..)
            | TypeExpr::Ref(..)
            | TypeExpr::ImmRef(..)
            | TypeExpr::Iso(..),
        ) => None,
    }
}

// The parameters have the first registers, in order.
#[tactic(auto, using(crate::proofs::FunctionLaws::params))]
fn param_frame(alloc: Global, params: &[Param]) -> Result<Frame, Memory>
    ensures locals { IfOk result (λ f. framed f.locals.items [] ≡ param_slots 0 (map view_param params.now) []) }
    ensures next { IfOk result (λ f. f.next ≡ length (param_names (map view_param params.now))) }
    ensures over { IfOk result (λ f. f.over ≡ false) }
{
    let mut frame = Frame::new(alloc, 0, false);
    for param in params {
        frame.declare(param.name.name, type_of(alloc, &param.ty)?)?;
    }
    Ok(frame)
}

// The labels of a body, where the frame has the parameters.
#[tactic(auto, using(crate::proofs::FunctionLaws::bodies))]
fn body_labels(
    alloc: Global,
    block: &Block,
    frame: &Frame,
    registers: u32,
    result_type: Option<CodeTy>,
) -> Result<Labels, Memory>
    ensures { IfOk result (λ l. progress l ≡ with_marks (body_marks (is_some result_type) (view_block block.now) (frame.now.next + 1) (record { slots = framed frame.now.locals.items []; over = frame.now.over })) (record { last = record { register = frame.now.next; ty = result_type }; registers = registers; labels = []; place = 0 })) }
{
    let returns = result_type.is_some();
    let next = above(frame.next)?;
    let mut labels = Labels::new(alloc, registers, frame.next, result_type);
    let outside = Slots::Outside;
    let slots = Slots::Frame(&frame.locals, &outside);
    let here = Standing {
        next,
        slots: &slots,
        over: frame.over,
        returns,
    };
    walk_block(alloc, block, false, &here, &mut labels)?;
    let after = Standing {
        over: block_returns(block) || frame.over,
        ..here
    };
    labels.put(alloc, &after)?;
    Ok(labels)
}

// The labels of a function with so many registers.
#[tactic(auto, using(crate::proofs::FunctionLaws::functions))]
fn function_labels(
    alloc: Global,
    function: &Function,
    registers: u32,
) -> Result<Sequence<Label>, Memory>
    ensures { IfOk result (λ labels. labels ≡ labels_from (last_of (view_function function.now)) registers 0 (function_marks (plain_of (view_function function.now)) (view_function function.now))) }
{
    let frame = param_frame(alloc, function.head.params.as_slice())?;
    let result_type = value_type(&function.head.result);
    let labels = body_labels(alloc, &function.body, &frame, registers, result_type)?;
    Ok(Sequence::from_vec(labels.labels))
}

/// The facts of a function of a program, whose code has so many registers.
#[tactic(auto, using(crate::proofs::FunctionLaws::plain_facts))]
pub fn function_facts(
    alloc: Global,
    function: &Function,
    registers: u32,
) -> Result<FuncFacts, Memory>
    ensures { IfOk result (λ f. (p : Parts) (texts : List (List ℕ)) (fs : List t.Function) → (lowered_function p texts fs (view_function function.now)).registers ≡ registers → f ≡ function_facts p texts fs (view_function function.now)) }
{
    let labels = function_labels(alloc, function, registers)?;
    Ok(FuncFacts {
        live: Sequence::new(alloc),
        labels,
    })
}
