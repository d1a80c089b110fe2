// The whole of a file, from its bytes.
ghost use Rattle.std.specs.Prelude.{◌≡◌, ℕ, List, IfOk};
ghost use Rattle.vale_base.specs.Faults.{IfFault, IsValueUnlessMemory, IsFaultUnlessMemory};
ghost use Rattle.vale_code.specs.Parts.{Parts};
ghost use Rattle.vale_cert.specs.declared.facts.FuncFacts.{FuncFacts};
ghost use Rattle.vale_codec.specs.Format.{Gives};
ghost use Rattle.vale_file_spec.specs.File.{mark, version, front, file_read, fault_code, Spells, HasFault};

use crate::fault::FileFault;
use std::alloc::Global;
use vale_base::Fail;
use vale_cert::Facts;
use vale_code::Code;
use vale_codec::{Fault, Reason};
use vale_file_reader::read_content;

// The bytes after the first four, which are those of every code file.
fn read_mark(bytes: &[u8]) -> Result<&[u8], Fail<Fault>>
    ensures { Gives (λ x. (tt, x.now)) result (mark.read bytes.now) }
{
    let wrong = Fault {
        reason: Reason::Magic,
        left: bytes.len(),
    };
    if bytes.len() < 4 {
        return Err(Fail::Is(wrong));
    }
    let (front, rest) = bytes.split_at(4);
    if front != b"VALC".as_slice() {
        return Err(Fail::Is(wrong));
    }
    Ok(rest)
}

// The bytes after the version.
fn read_version(bytes: &[u8]) -> Result<&[u8], Fail<Fault>>
    ensures { Gives (λ x. (1, x.now)) result (version.read bytes.now) }
{
    match bytes {
        [] => Err(Fail::Is(Fault {
            reason: Reason::Ends,
            left: 0,
        })),
        [1, rest @ ..] => Ok(rest),
        _ => Err(Fail::Is(Fault {
            reason: Reason::Version,
            left: bytes.len(),
        })),
    }
}

#[tactic(auto, unfolding(vale_file_spec::specs::File::front))]
fn read_front(alloc: Global, bytes: &[u8]) -> Result<((Code, Facts), &[u8]), Fail<Fault>>
    ensures { Gives (λ x. ((tt, (1, (x.0.0, x.0.1))), x.1.now)) result (front.read bytes.now) }
{
    let rest = read_mark(bytes)?;
    let rest = read_version(rest)?;
    read_content(alloc, rest)
}

#[tactic(auto, unfolding(vale_file_spec::specs::File::file_read))]
fn read_file(alloc: Global, bytes: &[u8]) -> Result<(Code, Facts), Fail<Fault>>
    ensures { Gives (λ x. (tt, (1, (x.0, x.1)))) result (file_read bytes.now) }
{
    let (found, rest) = read_front(alloc, bytes)?;
    match rest {
        [] => Ok(found),
        [_, more @ ..] => Err(Fail::Is(Fault {
            reason: Reason::Trailing,
            left: more.len() + 1,
        })),
    }
}

fn code_of(reason: Reason) -> u8
    ensures { result ≡ fault_code reason }
{
    match reason {
        Reason::Magic => 1,
        Reason::Version => 2,
        Reason::Ends => 3,
        Reason::Number => 4,
        Reason::Trailing => 5,
    }
}

/// The code and the facts that the bytes of a file spell, or the first fault of the bytes. The time and the memory that it
/// takes are in proportion to the bytes: no count that they name is trusted before its parts are there.
pub fn read_code(alloc: Global, bytes: &[u8]) -> Result<(Code, Facts), Fail<FileFault>>
    // what is read is spelled so
    ensures found { IfOk result (λ x. Spells bytes.now 1 x.0 x.1) }
    // what is spelled so is read, and nothing else
    ensures only { (code : Parts) (facts : List FuncFacts) → Spells bytes.now 1 code facts
        → IsValueUnlessMemory result (λ x. (x.0 ≡ code) × (x.1 ≡ facts)) }
    // the fault that is answered is the first
    ensures fault { IfFault result (λ f. HasFault bytes.now f.code f.at) }
    // the first fault is answered
    ensures faulty { (code at : ℕ) → HasFault bytes.now code at → IsFaultUnlessMemory result (λ f. (f.code ≡ code) × (f.at ≡ at)) }
{
    match read_file(alloc, bytes) {
        Ok((code, facts)) => Ok((code, facts)),
        Err(Fail::Memory) => Err(Fail::Memory),
        Err(Fail::Is(fault)) => {
            let at = bytes.len().saturating_sub(fault.left);
            Err(Fail::Is(FileFault {
                code: code_of(fault.reason),
                at: at as u64,
            }))
        }
    }
}
