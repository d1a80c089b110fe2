// Rule 1: whether each function is as it must be.
ghost use Rattle.std.specs.Prelude.{◌≡◌, nat_lt};
ghost use Rattle.std.specs.List.{list_all};
ghost use Rattle.vale_cert.specs.Numbers.{numbers};
ghost use Rattle.vale_cert.specs.Types.{marked};
ghost use Rattle.vale_cert.specs.Shape.{is_captured, takes_item, takes_a_struct, may_leave_iteration, has_form, has_live, fact_is_lawful, label_is_lawful, has_input, is_main, head_is_lawful, body_is_lawful, func_is_lawful};

use crate::lawful::{are_types, is_result, is_type, may_be_isolate};
use crate::numbers::{is_text, numbers};
use crate::shape::has_pure_types;
use crate::types::{is_copy, is_reference, is_void};
use vale_cert::{FuncFacts, Label, RegFact};
use vale_code::{Code, Func, Instr, KindInfo, Ty};

fn are_captured(types: &[Ty]) -> bool
    ensures { result ≡ list_all is_captured types.now }
{
    for ty in types {
        if !(matches!(ty, Ty::Frozen(_)) || is_copy(*ty)) {
            return false;
        }
    }
    true
}

fn takes_item(params: &[Ty]) -> bool
    ensures { result ≡ takes_item params.now }
{
    match params {
        [] => false,
        [first, rest @ ..] => matches!(first, Ty::Int | Ty::Iso(_)) && are_captured(rest),
    }
}

fn takes_a_struct(code: &Code, params: &[Ty]) -> bool
    ensures { result ≡ takes_a_struct code.now params.now }
{
    match params {
        [Ty::Own(kind)] => matches!(
            code.kinds.as_slice().get(kind.0 as usize),
            Some(KindInfo::Struct { .. })
        ),
        _ => false,
    }
}

fn may_leave_iteration(code: &Code, marks: &[bool], ty: Ty) -> bool
    ensures { result ≡ may_leave_iteration code.now (marked marks.now) ty }
{
    match ty {
        Ty::Own(kind) => may_be_isolate(code, marks, kind),
        _ => !is_reference(ty),
    }
}

fn has_form(code: &Code, marks: &[bool], func: &Func) -> bool
    ensures { result ≡ has_form code.now (marked marks.now) func.now.form func.now }
{
    let params = func.params.as_slice();
    match func.form {
        0 => true,
        1 => has_pure_types(params, func.result),
        2 => takes_item(params) && may_leave_iteration(code, marks, func.result),
        3 => takes_a_struct(code, params) && is_void(func.result),
        _ => false,
    }
}

fn are_params(live: &[u32], count: usize) -> bool
    ensures { result ≡ list_all (λ n. nat_lt n count) live.now }
{
    for n in live {
        if *n as usize >= count {
            return false;
        }
    }
    true
}

fn has_live(func: &Func, live: &[u32]) -> bool
    ensures { result ≡ has_live func.now live.now }
{
    live.is_empty() || (func.form == 2 && are_params(live, func.params.len()))
}

fn facts_are_lawful(code: &Code, marks: &[bool], regs: &[RegFact]) -> bool
    ensures { result ≡ list_all (fact_is_lawful code.now (marked marks.now)) regs.now }
{
    for fact in regs {
        if let RegFact::Held { ty, .. } = fact {
            if !is_type(code, marks, *ty) {
                return false;
            }
        }
    }
    true
}

fn labels_are_lawful(code: &Code, marks: &[bool], func: &Func, labels: &[Label]) -> bool
    ensures { result ≡ list_all (label_is_lawful code.now (marked marks.now) func.now) labels.now }
{
    for label in labels {
        let inside = (label.at as usize) < func.body.len();
        let regs = label.regs.as_slice();
        if !(inside
            && regs.len() == func.registers as usize
            && facts_are_lawful(code, marks, regs))
        {
            return false;
        }
    }
    true
}

fn has_input(code: &Code, params: &[Ty]) -> bool
    ensures { result ≡ has_input code.now params.now }
{
    match params {
        [] => true,
        [Ty::Own(kind)] => match code.kinds.as_slice().get(kind.0 as usize) {
            Some(KindInfo::Array { item }) => matches!(item, Ty::Int | Ty::Text),
            _ => false,
        },
        _ => false,
    }
}

fn is_main(code: &Code, func: &Func) -> bool
    ensures { result ≡ is_main code.now func.now }
{
    func.form == 0 && has_input(code, func.params.as_slice()) && is_void(func.result)
}

fn head_is_lawful(code: &Code, marks: &[bool], func: &Func) -> bool
    ensures { result ≡ head_is_lawful code.now (marked marks.now) func.now }
{
    is_text(code, func.name)
        && has_form(code, marks, func)
        && are_types(code, marks, func.params.as_slice())
        && is_result(code, marks, func.result)
}

fn are_numbered(code: &Code, registers: u32, body: &[Instr]) -> bool
    ensures { result ≡ list_all (numbers code.now registers) body.now }
{
    for instr in body {
        if !numbers(code, registers, instr) {
            return false;
        }
    }
    true
}

fn body_is_lawful(code: &Code, func: &Func) -> bool
    ensures { result ≡ body_is_lawful code.now func.now }
{
    let body = func.body.as_slice();
    func.params.len() <= func.registers as usize
        && !body.is_empty()
        && are_numbered(code, func.registers, body)
}

/// Whether function m is as it must be, with its facts.
pub fn func_is_lawful(code: &Code, marks: &[bool], m: usize, func: &Func, facts: &FuncFacts) -> bool
    ensures { result ≡ func_is_lawful code.now (marked marks.now) m func.now facts.now }
{
    head_is_lawful(code, marks, func)
        && body_is_lawful(code, func)
        && has_live(func, facts.live.as_slice())
        && labels_are_lawful(code, marks, func, facts.labels.as_slice())
        && (m != code.main as usize || is_main(code, func))
}
