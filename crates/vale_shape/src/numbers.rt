// Whether the numbers of instructions lie inside their tables.
ghost use Rattle.std.specs.Prelude.{◌≡◌, ◌||◌, slice_get};
ghost use Rattle.vale_code.specs.Operands.{writes};
ghost use Rattle.vale_cert.specs.Numbers.{is_text, is_function, method_from, has_method, is_void_function, is_void_method, is_void_call, in_tables, are_registers, numbers};

use crate::lawful::is_kind;
use crate::types::is_void;
use vale_code::{Code, Instr, KindInfo};

pub fn is_text(code: &Code, n: u32) -> bool
    ensures { result ≡ is_text code.now n }
{
    (n as usize) < code.texts.len()
}

fn is_function(code: &Code, n: u32) -> bool
    ensures { result ≡ is_function code.now n }
{
    (n as usize) < code.funcs.len()
}

fn has_method(code: &Code, interface: u32, method: u32) -> bool
    ensures { result ≡ has_method (slice_get code.now.kinds interface) method }
{
    match code.kinds.as_slice().get(interface as usize) {
        None => false,
        Some(KindInfo::Interface { methods, .. }) => (method as usize) < methods.len(),
        Some(KindInfo::Struct { .. } | KindInfo::Array { .. }) => true,
    }
}

// ---- calls of which nothing comes back

fn is_void_function(code: &Code, func: u32) -> bool
    ensures { result ≡ is_void_function (slice_get code.now.funcs func) }
{
    match code.funcs.as_slice().get(func as usize) {
        None => false,
        Some(callee) => is_void(callee.result),
    }
}

fn is_void_method(code: &Code, interface: u32, method: u32) -> bool
    ensures { result ≡ is_void_method (method_from (slice_get code.now.kinds interface) method) }
{
    match code.kinds.as_slice().get(interface as usize) {
        Some(KindInfo::Interface { methods, .. }) => match methods.as_slice().get(method as usize) {
            None => false,
            Some(m) => is_void(m.result),
        },
        _ => false,
    }
}

fn is_void_call(code: &Code, instr: &Instr) -> bool
    ensures { result ≡ is_void_call code.now instr.now }
{
    match instr {
        Instr::Call { func, .. } | Instr::ParRange { func, .. } | Instr::ParEach { func, .. } => {
            is_void_function(code, *func)
        }
        Instr::CallM {
            interface,
            method,
            ..
        }
        | Instr::CallMLive {
            interface,
            method,
            ..
        } => { is_void_method(code, *interface, *method) }
        _ => false,
    }
}

fn in_tables(code: &Code, instr: &Instr) -> bool
    ensures { result ≡ in_tables code.now instr.now }
{
    match instr {
        Instr::Truth { choice, .. } | Instr::Print { choice, .. } => *choice < 2,
        Instr::Cmp { choice, .. } => *choice < 6,
        Instr::Text { text, .. } => is_text(code, *text),
        Instr::Call { func, .. } | Instr::ParRange { func, .. } | Instr::ParEach { func, .. } => {
            is_function(code, *func)
        }
        Instr::CallM {
            interface,
            method,
            ..
        }
        | Instr::CallMLive {
            interface,
            method,
            ..
        } => { has_method(code, *interface, *method) }
        Instr::Make { kind, .. } | Instr::Upcast { kind, .. } => is_kind(code, *kind),
        _ => true,
    }
}

fn are_written(code: &Code, registers: u32, instr: &Instr) -> bool
    ensures { result ≡ (is_void_call code.now instr.now || are_registers registers (writes instr.now)) }
{
    is_void_call(code, instr) || instr.writes().are_below(registers)
}

/// Whether the numbers of an instruction lie inside their tables, in a function with so many registers.
pub fn numbers(code: &Code, registers: u32, instr: &Instr) -> bool
    ensures { result ≡ numbers code.now registers instr.now }
{
    instr.reads().are_below(registers)
        && are_written(code, registers, instr)
        && in_tables(code, instr)
}
