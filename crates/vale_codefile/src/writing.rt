// The whole of a file, of a code with its facts.
ghost use Rattle.std.specs.Prelude.{◌≡◌, ℕ, List, IfOk};
ghost use Rattle.vale_file_spec.specs.File.{front, Spells};

use std::alloc::Global;
use vale_base::Memory;
use vale_cert::Facts;
use vale_code::Code;
use vale_file_fits::code_fits;
use vale_file_writer::write_content;
use vale_verifier::Verified;

// The bytes of a code with its facts.
#[tactic(auto, unfolding(vale_file_spec::specs::File::front))]
fn write_file(alloc: Global, code: &Code, facts: &Facts) -> Result<Vec<u8>, Memory>
    ensures { IfOk result (λ v. v.items ≡ front.write (tt, (1, (code.now, facts.now)))) }
{
    let mut out = Vec::new(alloc);
    out.extend_from_slice(b"VALC".as_slice())?;
    out.push(1)?;
    write_content(&mut out, code, facts)?;
    Ok(out)
}

/// The file of certified code with its facts.
pub fn write_code(alloc: Global, verified: &Verified) -> Result<Vec<u8>, Memory>
    // what is written spells the code with its facts
    ensures spelled { IfOk result (λ v. Spells v.items 1 verified.now.code verified.now.facts) }
    // and nothing else does
    ensures unique { (bytes : List ℕ) → Spells bytes 1 verified.now.code verified.now.facts → IfOk result (λ v. v.items ≡ bytes) }
{
    code_fits(&verified.code, &verified.facts);
    let bytes = write_file(alloc, &verified.code, &verified.facts)?;
    Ok(bytes)
}
