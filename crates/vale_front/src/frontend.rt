// From a text to its typed tree.
ghost use Rattle.std.specs.Prelude.{◌≡◌, IfOk};
ghost use Rattle.vale_base.specs.Faults.{IfFault, IsValueUnlessMemory};
ghost use Rattle.vale_core.specs.View.{view_core};
ghost use Rattle.vale_front.specs.Front.{Accepts, Refused};
ghost use Rattle.vale_syntax.specs.Tree as t;
ghost use Rattle.vale_rules_spec.specs.Typed.{Typed};
ghost use Rattle.vale_syntax.specs.declared.decls.Decls.{Decls};

use crate::judging::judge;
use crate::reading::read;
use crate::refusal::Refusal;
use std::alloc::Global;
use vale_base::Fail;
use vale_core::Sound;

/// The typed tree of a program, or why it is refused: reading, declarations, types, ownership, freezes and isolates, in
/// this order (docs/LANGUAGE.md). `Fail::Is` comes where the text is no well-formed program, and where the program has
/// something that isn't served yet, as code 5 at 1:1; `Fail::Memory` may always come.
pub fn front(alloc: Global, text: &[u8]) -> Result<Sound, Fail<Refusal>>
    // what is answered is the text's
    ensures found { IfOk result (λ sound. (tree : t.Tree) × (decls : Decls) × Accepts text.now tree decls (view_core sound.core)) }
    // each text that is a program and is served is accepted
    ensures complete { (tree : t.Tree) (decls : Decls) (program : Typed) → Accepts text.now tree decls program → IsValueUnlessMemory result (λ sound. view_core sound.core ≡ program) }
    // a refusal is that of the first phase that refuses
    ensures refused { IfFault result (λ f. Refused text.now f.code f.at) }
{
    match read(alloc, text) {
        Ok(tree) => judge(alloc, tree),
        Err(fail) => Err(fail),
    }
}
