// The rules of all instructions, in order.
ghost use Rattle.std.specs.Prelude.{◌≡◌, ◌+◌, ◌≤◌, ◌<◌, ◌^◌, true, None, Some, length};
ghost use Rattle.std.specs.List.{list_all};
ghost use Rattle.vale_code.specs.Sizes.{instructions};
ghost use Rattle.vale_cert.specs.Shape.{funcs_fault, shape_fault};
ghost use Rattle.vale_cert.specs.Types.{reaches_isolate};
ghost use Rattle.vale_cert.specs.Walk.{walk, function_fault, functions_fault};
ghost use Rattle.vale_shape.specs.Known.{Knows};
ghost use Rattle.vale_verifier.specs.Walking.{Ahead, states_all, has_room};

use crate::judge::{Standing, depth_after, step};
use crate::known::{enter, may_enter, state};
use crate::labels::{behind, front_at, rise};
use vale_cert::{Facts, Fault, FuncFacts, Label, RegFact};
use vale_code::{Code, Func};
use vale_shape::{Implementations, facts_of};

/// The first rule that an instruction of a function breaks, before the first of which this is known; `came` says that the
/// function's entry may enter the label there.
fn walk(
    code: &Code,
    known: &Implementations,
    func: &Func,
    labels: &[Label],
    base: u32,
    came: bool,
    regs: &mut [RegFact],
) -> Option<Fault>
    requires known { Knows known.now code.now.impls }
    requires registers { length regs.old ≡ func.now.registers }
    requires labels { list_all (states_all func.now.registers) labels.now ≡ true }
    requires ahead { Ahead 0 labels.now }
    requires small { base + length func.now.body < 2 ^ 32 }
    ensures { result ≡ walk code.now func.now labels.now base 0 func.now.body came (Some (record { depth = 0; regs = regs.old })) }
{
    let mut came = came;
    let mut left = labels;
    let mut depth = Some(0);
    for (place, instr) in func.body.as_slice().iter().enumerate() {
        let at = base + place as u32;
        let label = front_at(left, place);
        left = behind(left, place);
        let Some(stated) = state(label, depth, regs) else {
            return Some(Fault { rule: 7, at });
        };
        let mut now = stated;
        let here = Standing {
            code,
            known,
            func,
            labels,
            left,
            place,
            came,
        };
        match step(&here, &mut now, regs, instr) {
            Some(rule) => return Some(Fault { rule, at }),
            None => {}
        }
        came = true;
        depth = depth_after(instr, now);
    }
    None
}

/// The first rule that is broken in a function, whose first instruction has this number.
fn function_fault(
    code: &Code,
    known: &Implementations,
    func: &Func,
    facts: &FuncFacts,
    base: u32,
    regs: &mut [RegFact],
) -> Option<Fault>
    requires known { Knows known.now code.now.impls }
    requires registers { length regs.old ≡ func.now.registers }
    requires params { length func.now.params ≤ func.now.registers }
    requires labels { list_all (states_all func.now.registers) facts.now.labels ≡ true }
    requires small { base + length func.now.body < 2 ^ 32 }
    ensures { result ≡ function_fault code.now base func.now facts.now }
{
    let labels = facts.labels.as_slice();
    if !rise(labels) {
        return Some(Fault { rule: 7, at: base });
    }
    enter(regs, facts.live.as_slice(), func.params.as_slice());
    let came = may_enter(front_at(labels, 0), 0, regs);
    walk(code, known, func, labels, base, came, regs)
}

fn larger(a: usize, b: usize) -> usize
    ensures left { a ≤ result }
    ensures right { b ≤ result }
{
    if a < b { b } else { a }
}

/// As many registers as a function has at most.
pub fn most_registers(funcs: &[Func]) -> usize
    ensures { list_all (has_room result) funcs.now ≡ true }
{
    let mut most = 0;
    for func in funcs {
        most = larger(most, func.registers as usize);
    }
    most
}

fn fault_among(
    code: &Code,
    known: &Implementations,
    funcs: &[Func],
    facts: &[FuncFacts],
    regs: &mut [RegFact],
) -> Option<Fault>
    requires known { Knows known.now code.now.impls }
    requires lawful { funcs_fault code.now (reaches_isolate code.now) 0 funcs.now facts.now ≡ None }
    requires room { list_all (has_room (length regs.old)) funcs.now ≡ true }
    requires small { instructions funcs.now < 2 ^ 32 }
    ensures { result ≡ functions_fault code.now 0 funcs.now facts.now }
{
    let mut base = 0;
    for (n, func) in funcs.iter().enumerate() {
        match facts_of(facts, n) {
            None => return None,
            Some(one) => {
                let own = &mut regs[..func.registers as usize];
                match function_fault(code, known, func, one, base, own) {
                    Some(fault) => return Some(fault),
                    None => {}
                }
            }
        }
        base += func.body.len() as u32;
    }
    None
}

/// The first rule that is broken in all functions, of a code whose shape is as it must be; `regs` has room for the registers
/// of each.
pub fn functions_fault(
    code: &Code,
    known: &Implementations,
    facts: &Facts,
    regs: &mut [RegFact],
) -> Option<Fault>
    requires known { Knows known.now code.now.impls }
    requires shape { shape_fault code.now facts.now ≡ None }
    requires room { list_all (has_room (length regs.old)) code.now.funcs ≡ true }
    ensures { result ≡ functions_fault code.now 0 code.now.funcs facts.now }
{
    fault_among(
        code,
        known,
        code.funcs.as_slice(),
        facts.funcs.as_slice(),
        regs,
    )
}
