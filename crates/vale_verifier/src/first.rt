// The first rule that is broken, and whether none is.
ghost use Rattle.std.specs.Prelude.{◌≡◌, ◌↔◌, true, IfOk};
ghost use Rattle.vale_cert.specs.Certificate.{first_fault, Certified};

use crate::walk::{functions_fault, most_registers};
use std::alloc::Global;
use vale_base::Memory;
use vale_cert::{Facts, Fault, RegFact};
use vale_code::Code;
use vale_shape::{Implementations, shape_fault};

/// The first rule that is broken, and where (docs/FORMATS.md, "Certificates"); none where the facts certify the code. It
/// takes memory for marks of kinds, for the pairs of implementations and for one row of registers, and none after that.
pub fn first_fault(alloc: Global, code: &Code, facts: &Facts) -> Result<Option<Fault>, Memory>
    ensures { IfOk result (λ o. o ≡ first_fault code.now facts.now) }
{
    let mut known = Implementations::new(alloc);
    if let Some(at) = shape_fault(alloc, code, facts, &mut known)? {
        return Ok(Some(Fault { rule: 1, at }));
    }
    let count = most_registers(code.funcs.as_slice());
    let mut regs = vec![in alloc; RegFact::Empty; count]?;
    Ok(functions_fault(code, &known, facts, &mut regs))
}

/// Whether the facts certify the code, with which it never goes wrong.
pub fn certified(alloc: Global, code: &Code, facts: &Facts) -> Result<bool, Memory>
    ensures { IfOk result (λ b. (b ≡ true) ↔ Certified code.now facts.now) }
{
    Ok(first_fault(alloc, code, facts)?.is_none())
}
