// Calls, and objects that are made of values.
ghost use Rattle.std.specs.Prelude.{◌≡◌, nat_le, Bool, Some, length, map, OnOk};
ghost use Rattle.vale_base.specs.Limits.{width_limit};
ghost use Rattle.vale_rules_spec.specs.Types as y;
ghost use Rattle.vale_rules_spec.specs.Typed as t;
ghost use Rattle.vale_core.specs.View.{view_ty, view_callee, view_function};
ghost use Rattle.vale_lowering_objects.specs.Lowered.{callee_code, make_code, may_be_called};
ghost use Rattle.vale_lower_flow.specs.Flow.{going, put};
ghost use Rattle.vale_lower_flow.specs.Kept.{view_gives};
ghost use Rattle.vale_lower_places.specs.Origins.{is_text};
ghost use Rattle.vale_lower_tables.specs.Surroundings.{view_around};

use crate::built_ins::put_built_in;
use crate::written::{fit, gives_of_result};
use std::alloc::Global;
use vale_base::{Kind, Memory, WIDTH_LIMIT};
use vale_code::Instr;
use vale_core::{Callee, Function, Ty};
use vale_lower_flow::{Flow, Gives};
use vale_lower_places::{put_stuck, registers_from};
use vale_lower_tables::Around;
use vale_names::is_called;
use vale_syntax::NameAt;

/// A call, once its values stand in registers.
#[derive(Clone, Copy)]
pub struct Call<'a> {
    pub name: NameAt,
    /// What is wanted of it.
    pub gives: Gives,
    /// Whether its first value is a text.
    pub of_text: bool,
    /// What its values are.
    pub values: &'a [Gives],
    /// The register of the first of them, to which the call's value goes; the others stand in those after it.
    pub first: u32,
}

// Whether the function may be called so: it is no destructor, takes the values, and gives what is wanted.
fn may_be_called(around: &Around, call: Call, function: &Function) -> bool
    ensures { result ≡ may_be_called (view_around around.now).parts (view_gives call.entry.gives) (map view_gives call.entry.values.now) (Some (view_function function.now)) }
{
    let head = &function.head;
    if is_called(around.tables.names, b"drop", head.name) {
        return false;
    }
    call.gives.agrees(gives_of_result(&head.result)) && fit(call.values, head.params.as_slice())
}

// A call of the first function of the name.
fn put_call(alloc: Global, flow: &mut Flow, around: &Around, call: Call) -> Result<(), Memory>
    ensures { OnOk result ((is_pure : Bool) (x : y.Ty) → going flow.new ≡ put (callee_code (view_around around.now) (view_gives call.entry.gives) call.entry.name (t.function is_pure) x (map view_gives call.entry.values.now) call.entry.first) (going flow.old)) }
{
    let h = call.first;
    let Some(callee) = around.functions.named(call.name.name) else {
        return put_stuck(flow, h);
    };
    if !may_be_called(around, call, callee.function) {
        return put_stuck(flow, h);
    }
    let args = registers_from(alloc, h, call.values.len())?;
    flow.put(Instr::Call {
        to: h,
        func: callee.number,
        args,
        at: call.name.at,
    })
}

// Whether there are no more than an array may have.
fn is_in_width(values: &[Gives]) -> bool
    ensures { result ≡ nat_le (length (map view_gives values.now)) width_limit }
{
    values.len() <= WIDTH_LIMIT
}

/// An object of the type is made of values that stand in the registers from the first on, and goes to that register.
pub fn put_made(
    alloc: Global,
    flow: &mut Flow,
    around: &Around,
    gives: Gives,
    ty: &Ty,
    values: &[Gives],
    first: u32,
) -> Result<(), Memory>
    ensures { OnOk result (going flow.new ≡ put (make_code (view_around around.now).parts (view_gives gives) (view_ty ty.now) (map view_gives values.now) first) (going flow.old)) }
{
    if !gives.agrees(Gives::Owned) || !is_in_width(values) {
        return put_stuck(flow, first);
    }
    let kind = Kind(around.number_of_kind(ty)?);
    let args = registers_from(alloc, first, values.len())?;
    flow.put(Instr::Make {
        to: first,
        kind,
        args,
    })
}

/// The value of a call goes to the register of its first value.
pub fn put_callee(
    alloc: Global,
    flow: &mut Flow,
    around: &Around,
    callee: Callee,
    call: Call,
) -> Result<(), Memory>
    ensures { OnOk result ((x : y.Ty) → call.entry.of_text ≡ is_text x → going flow.new ≡ put (callee_code (view_around around.now) (view_gives call.entry.gives) call.entry.name (view_callee callee) x (map view_gives call.entry.values.now) call.entry.first) (going flow.old)) }
{
    match callee {
        Callee::BuiltIn(f) => put_built_in(flow, f, call),
        Callee::Constructor => {
            let ty = Ty::kind(call.name.name);
            put_made(
                alloc,
                flow,
                around,
                call.gives,
                &ty,
                call.values,
                call.first,
            )
        }
        Callee::Function(_) => put_call(alloc, flow, around, call),
    }
}
