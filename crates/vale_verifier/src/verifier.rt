// From a code and facts to certified code.
ghost use Rattle.std.specs.Prelude.{◌≡◌, ℕ, Some, IfOk};
ghost use Rattle.vale_cert.specs.Certificate.{first_fault, Certified};
ghost use Rattle.vale_base.specs.Faults.{IfFault, IsValueUnlessMemory, IsFaultUnlessMemory};

use crate::first::first_fault;
use crate::verified::Verified;
use std::alloc::Global;
use thiserror::Error;
use vale_base::Fail;
use vale_cert::Facts;
use vale_code::Code;

/// The first rule that is broken, and where, as `Fault` (vale_cert).
#[derive(Clone, Copy, Debug, Drop, PartialEq, Eq, Error)]
#[error("rule {rule} is broken at {at}")]
pub struct VerifyFault {
    pub rule: u8,
    pub at: u32,
}

/// The code with the facts, where these certify it; else the first rule that is broken, and where, and both values are
/// dropped. It takes memory as `first_fault` does.
pub fn verify(alloc: Global, code: Code, facts: Facts) -> Result<Verified, Fail<VerifyFault>>
    // what is answered is the same code with the same facts
    ensures found { IfOk result (λ v. (v.code ≡ code) × (v.facts ≡ facts)) }
    // what is certified is answered
    ensures complete { Certified code facts → IsValueUnlessMemory result (λ v. (v.code ≡ code) × (v.facts ≡ facts)) }
    // the fault that is answered is the first
    ensures fault { IfFault result (λ f. first_fault code facts ≡ Some (record { rule = f.rule; at = f.at })) }
    // the first fault is answered
    ensures refused { (rule at : ℕ) → first_fault code facts ≡ Some (record { rule = rule; at = at })
        → IsFaultUnlessMemory result (λ f. (f.rule ≡ rule) × (f.at ≡ at)) }
{
    match first_fault(alloc, &code, &facts)? {
        None => Ok(Verified { code, facts }),
        Some(fault) => Err(Fail::Is(VerifyFault {
            rule: fault.rule,
            at: fault.at,
        })),
    }
}
