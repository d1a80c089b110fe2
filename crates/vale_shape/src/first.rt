// The first kind, implementation or function that isn't as it must be.
ghost use Rattle.std.specs.Prelude.{◌≡◌, ◌≤◌, ◌<◌, ◌^◌, [], None, IfOk, IfSome, length, slice_get, option_copied};
ghost use Rattle.vale_cert.specs.Types.{marked};
ghost use Rattle.vale_cert.specs.Shape.{kinds_fault, impls_fault, funcs_fault, shape_fault_by, shape_fault};
ghost use Rattle.vale_shape.specs.Known.{Knows};
ghost use Rattle.vale_shape.specs.Under.{MarksArrays};

use crate::funcs::func_is_lawful;
use crate::implementations::Implementations;
use crate::shape::{implements, kind_is_lawful};
use std::alloc::Global;
use vale_base::Memory;
use vale_cert::{Facts, FuncFacts};
use vale_code::{Code, Func};
use vale_marks::{array_marks, iso_marks};

fn kinds_fault(code: &Code, marks: &[bool], arrays: &[bool]) -> Option<usize>
    requires { MarksArrays code.now arrays.now }
    ensures first { result ≡ kinds_fault code.now (marked marks.now) 0 code.now.kinds }
    ensures within { IfSome result (λ n. n ≤ length code.now.kinds) }
{
    for (n, info) in code.kinds.as_slice().iter().enumerate() {
        if !kind_is_lawful(code, marks, arrays, n, info) {
            return Some(n);
        }
    }
    None
}

/// The first implementation that isn't as it must be; where there is none, all are known in the end.
fn impls_fault(code: &Code, known: &mut Implementations) -> Result<Option<usize>, Memory>
    requires { Knows known.old [] }
    ensures first { IfOk result (λ o. o ≡ impls_fault code.now 0 [] code.now.impls) }
    ensures within { IfOk result (λ o. IfSome o (λ n. n ≤ length code.now.impls)) }
    ensures known { IfOk result (λ o. o ≡ None → Knows known.new code.now.impls) }
{
    for (n, item) in code.impls.as_slice().iter().enumerate() {
        if !implements(code, item) {
            return Ok(Some(n));
        }
        if !known.add(item)? {
            return Ok(Some(n));
        }
    }
    Ok(None)
}

/// The facts of function m, where there are any.
pub fn facts_of(facts: &[FuncFacts], m: usize) -> Option<&FuncFacts>
    ensures { option_copied result ≡ slice_get facts.now m }
{
    facts.get(m)
}

fn fault_among(code: &Code, marks: &[bool], funcs: &[Func], facts: &[FuncFacts]) -> Option<usize>
    ensures first { result ≡ funcs_fault code.now (marked marks.now) 0 funcs.now facts.now }
    ensures within { IfSome result (λ n. n ≤ length funcs.now) }
{
    for (m, func) in funcs.iter().enumerate() {
        match facts_of(facts, m) {
            None => return Some(m),
            Some(one) => {
                if !func_is_lawful(code, marks, m, func, one) {
                    return Some(m);
                }
            }
        }
    }
    let count = funcs.len();
    if facts.len() > count {
        return Some(count);
    }
    if (code.main as usize) < count {
        None
    } else {
        Some(count)
    }
}

fn funcs_fault(code: &Code, marks: &[bool], facts: &Facts) -> Option<usize>
    ensures first { result ≡ funcs_fault code.now (marked marks.now) 0 code.now.funcs facts.now }
    ensures within { IfSome result (λ n. n ≤ length code.now.funcs) }
{
    fault_among(code, marks, code.funcs.as_slice(), facts.funcs.as_slice())
}

/// The first that isn't as it must be, where these are the kinds that reach an isolate, and the arrays of isolates.
fn fault_by(
    code: &Code,
    marks: &[bool],
    arrays: &[bool],
    facts: &Facts,
    known: &mut Implementations,
) -> Result<Option<usize>, Memory>
    requires arrays { MarksArrays code.now arrays.now }
    requires known { Knows known.old [] }
    ensures first { IfOk result (λ o. o ≡ shape_fault_by code.now (marked marks.now) facts.now) }
    ensures within { IfOk result (λ o. IfSome o (λ n. n < 2 ^ 32)) }
    ensures known { IfOk result (λ o. o ≡ None → Knows known.new code.now.impls) }
{
    let kinds = code.kinds.len();
    if let Some(n) = kinds_fault(code, marks, arrays) {
        return Ok(Some(n));
    }
    if let Some(n) = impls_fault(code, known)? {
        return Ok(Some(kinds + n));
    }
    match funcs_fault(code, marks, facts) {
        None => Ok(None),
        Some(n) => Ok(Some(kinds + code.impls.len() + n)),
    }
}

/// The number of the first kind, implementation or function that isn't as it must be, counted in this order; a function
/// that has no facts, or facts that no function has, are at their number, and a missing `main` is after the last. Where
/// nothing is wrong, all implementations are known in the end.
pub fn shape_fault(
    alloc: Global,
    code: &Code,
    facts: &Facts,
    known: &mut Implementations,
) -> Result<Option<u32>, Memory>
    requires { Knows known.old [] }
    ensures first { IfOk result (λ o. o ≡ shape_fault code.now facts.now) }
    ensures known { IfOk result (λ o. o ≡ None → Knows known.new code.now.impls) }
{
    let marks = iso_marks(alloc, code)?;
    let arrays = array_marks(alloc, code)?;
    let fault = fault_by(code, &marks, &arrays, facts, known)?;
    match fault {
        None => Ok(None),
        Some(n) => Ok(Some(n as u32)),
    }
}
