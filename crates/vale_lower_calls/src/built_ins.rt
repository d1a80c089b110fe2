// Calls of built-in functions.
ghost use Rattle.std.specs.Prelude.{◌≡◌, ◌+◌, ◌&&◌, ◌==◌, ◌∷◌, [], length, map, OnOk};
ghost use Rattle.vale_rules_spec.specs.Types as y;
ghost use Rattle.vale_syntax.specs.declared.built_in.BuiltIn.TheVariants as b;
ghost use Rattle.vale_lowering.specs.Instructions as plain;
ghost use Rattle.vale_lowering.specs.Instructions.{only_if};
ghost use Rattle.vale_lowering_objects.specs.Lowered.{is_copied, are_copied, copies_code, built_in_code};
ghost use Rattle.vale_lower_flow.specs.Flow.{going, put};
ghost use Rattle.vale_lower_flow.specs.Kept.{view_gives};
ghost use Rattle.vale_lower_places.specs.Origins.{is_text};
ghost use Rattle.vale_lower_calls.specs.Owners.{is_one_owner};

use crate::calls::Call;
use vale_base::{Memory, Spot};
use vale_code::Instr;
use vale_lower_flow::{Flow, Gives, above};
use vale_lower_places::put_stuck;
use vale_syntax::BuiltIn;

// The instruction where both hold, and else what no step follows.
fn only_where(one: bool, other: bool, instr: Instr, h: u32) -> Instr
    ensures { result ∷ [] ≡ only_if (one && other) h (instr ∷ []) }
{
    if one && other {
        instr
    } else {
        Instr::Truth { to: h, choice: 2 }
    }
}

// A built-in function of so many copied values, where a value is wanted or none, and these are the two registers after the
// first.
fn plain(f: BuiltIn, values: usize, gives: bool, at: Spot, h: u32, next: u32, after: u32) -> Instr
    requires next { next ≡ h + 1 }
    requires after { after ≡ next + 1 }
    ensures { result ∷ [] ≡ plain.built_in_code f values gives at h }
{
    let (to, from) = (h, h);
    match f {
        BuiltIn::Print => only_where(values == 1, !gives, Instr::Print { from, choice: 0 }, h),
        BuiltIn::Println => only_where(values == 1, !gives, Instr::Print { from, choice: 1 }, h),
        BuiltIn::Len => only_where(values == 1, gives, Instr::TextLen { to, from }, h),
        BuiltIn::Text => only_where(values == 1, gives, Instr::TextOf { to, from }, h),
        BuiltIn::Slice => {
            let slice = Instr::Slice {
                to,
                from,
                first: next,
                end: after,
                at,
            };
            only_where(values == 3, gives, slice, h)
        }
        BuiltIn::Byte => {
            let byte = Instr::Byte {
                to,
                from,
                index: next,
                at,
            };
            only_where(values == 2, gives, byte, h)
        }
        BuiltIn::IsNumber => only_where(values == 1, gives, Instr::IsNum { to, from }, h),
        BuiltIn::Number => only_where(values == 1, gives, Instr::Num { to, from, at }, h),
        BuiltIn::Drop | BuiltIn::Push | BuiltIn::Pop => Instr::Truth { to, choice: 2 },
    }
}

// Whether a copied value is wanted.
fn is_copied(gives: Gives) -> bool
    ensures { result ≡ is_copied (view_gives gives) }
{
    match gives {
        Gives::Copied => true,
        Gives::Void | Gives::Owned => false,
    }
}

fn are_copied(values: &[Gives]) -> bool
    ensures { result ≡ are_copied (map view_gives values.now) }
{
    for gives in values {
        if !is_copied(*gives) {
            return false;
        }
    }
    true
}

// Whether there are so many.
fn are_so_many(values: &[Gives], count: usize) -> bool
    ensures { result ≡ (length (map view_gives values.now) == count) }
{
    values.len() == count
}

// Whether there is one, and that is an owner.
fn is_one_owner(values: &[Gives]) -> bool
    ensures { result ≡ is_one_owner (map view_gives values.now) }
{
    match values {
        [gives] => gives.is_owner(),
        _ => false,
    }
}

// A built-in function of copied values.
fn put_copies(flow: &mut Flow, f: BuiltIn, call: Call) -> Result<(), Memory>
    ensures { OnOk result (going flow.new ≡ put (copies_code f (map view_gives call.entry.values.now) (view_gives call.entry.gives) call.entry.name.at call.entry.first) (going flow.old)) }
{
    let h = call.first;
    if !are_copied(call.values) || call.gives.is_owner() {
        return put_stuck(flow, h);
    }
    let next = above(h)?;
    let after = above(next)?;
    let gives = is_copied(call.gives);
    let at = call.name.at;
    flow.put(plain(f, call.values.len(), gives, at, h, next, after))
}

#[tactic(auto, using(crate::proofs::CallLaws::drops))]
fn put_drop(flow: &mut Flow, call: Call) -> Result<(), Memory>
    ensures { OnOk result ((x : y.Ty) → going flow.new ≡ put (built_in_code b.Drop x (map view_gives call.entry.values.now) (view_gives call.entry.gives) call.entry.name.at call.entry.first) (going flow.old)) }
{
    let h = call.first;
    if !is_one_owner(call.values) || call.gives.is_value() {
        return put_stuck(flow, h);
    }
    flow.put(Instr::Destroy {
        from: h,
        at: call.name.at,
    })
}

#[tactic(auto, using(crate::proofs::CallLaws::lens))]
fn put_len(flow: &mut Flow, call: Call) -> Result<(), Memory>
    ensures { OnOk result ((x : y.Ty) → call.entry.of_text ≡ is_text x → going flow.new ≡ put (built_in_code b.Len x (map view_gives call.entry.values.now) (view_gives call.entry.gives) call.entry.name.at call.entry.first) (going flow.old)) }
{
    let h = call.first;
    if !are_so_many(call.values, 1) || !is_copied(call.gives) {
        return put_stuck(flow, h);
    }
    if call.of_text {
        return flow.put(Instr::TextLen { to: h, from: h });
    }
    flow.put(Instr::Len {
        to: h,
        object: h,
        at: call.name.at,
    })
}

#[tactic(auto, using(crate::proofs::CallLaws::pushes))]
fn put_push(flow: &mut Flow, call: Call) -> Result<(), Memory>
    ensures { OnOk result ((x : y.Ty) → going flow.new ≡ put (built_in_code b.Push x (map view_gives call.entry.values.now) (view_gives call.entry.gives) call.entry.name.at call.entry.first) (going flow.old)) }
{
    let h = call.first;
    if !are_so_many(call.values, 2) || call.gives.is_value() {
        return put_stuck(flow, h);
    }
    let value = above(h)?;
    flow.put(Instr::Push {
        object: h,
        value,
        at: call.name.at,
    })
}

#[tactic(auto, using(crate::proofs::CallLaws::pops))]
fn put_pop(flow: &mut Flow, call: Call) -> Result<(), Memory>
    ensures { OnOk result ((x : y.Ty) → going flow.new ≡ put (built_in_code b.Pop x (map view_gives call.entry.values.now) (view_gives call.entry.gives) call.entry.name.at call.entry.first) (going flow.old)) }
{
    let h = call.first;
    if !are_so_many(call.values, 1) || !call.gives.is_value() {
        return put_stuck(flow, h);
    }
    flow.put(Instr::Pop {
        to: h,
        object: h,
        at: call.name.at,
    })
}

/// A call of a built-in function.
pub fn put_built_in(flow: &mut Flow, f: BuiltIn, call: Call) -> Result<(), Memory>
    ensures { OnOk result ((x : y.Ty) → call.entry.of_text ≡ is_text x → going flow.new ≡ put (built_in_code f x (map view_gives call.entry.values.now) (view_gives call.entry.gives) call.entry.name.at call.entry.first) (going flow.old)) }
{
    match f {
        BuiltIn::Drop => put_drop(flow, call),
        BuiltIn::Len => put_len(flow, call),
        BuiltIn::Push => put_push(flow, call),
        BuiltIn::Pop => put_pop(flow, call),
        BuiltIn::Print
        | BuiltIn::Println
        | BuiltIn::Text
        | BuiltIn::Slice
        | BuiltIn::Byte
        | BuiltIn::IsNumber
        | BuiltIn::Number => put_copies(flow, f, call),
    }
}
