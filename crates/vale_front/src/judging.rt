// From a tree to its typed tree.
ghost use Rattle.std.specs.Prelude.{◌≡◌, List, ℕ, IfOk, true};
ghost use Rattle.std.specs.List.{list_all};
ghost use Rattle.vale_base.specs.Faults.{IfFault, IsValueUnlessMemory};
ghost use Rattle.vale_core.specs.View.{view_core};
ghost use Rattle.vale_front.specs.Front.{Serves, Unsound};
ghost use Rattle.vale_syntax.specs.Bytes.{is_byte};
ghost use Rattle.vale_rules_spec.specs.Typed.{Typed};
ghost use Rattle.vale_syntax.specs.View.{view_tree};
ghost use Rattle.vale_rules_spec.specs.WellFormed.{Reads};
ghost use Rattle.vale_syntax.specs.declared.decls.Decls.{Decls};

use crate::interfaces::has_interfaces;
use crate::refusal::Refusal;
use crate::served::is_served;
use std::alloc::Global;
use vale_base::{Fail, Spot};
use vale_core::Sound;
use vale_iso::isolates;
use vale_owner::own;
use vale_region::regions;
use vale_syntax::Tree;
use vale_types::declare;
use vale_typing::type_all;

const NOT_SERVED: Refusal = Refusal {
    code: 5,
    at: Spot { line: 1, col: 1 },
};

// The typed tree of a text's tree, or why it is refused (docs/LANGUAGE.md, "Declarations", "Types", "Ownership" and
// "Freezes and isolates"). `Fail::Is` comes where a node breaks a rule, with the first such node of the first phase that
// finds one, and where the program has something that isn't served yet; `Fail::Memory` may always come.
pub fn judge(alloc: Global, tree: Tree) -> Result<Sound, Fail<Refusal>>
    // some text of bytes is read as the tree
    requires { (text : List ℕ) × (list_all is_byte text ≡ true) × Reads text (view_tree tree) }
    // what is answered breaks no rule, and all of it is served
    ensures found { IfOk result (λ sound. (decls : Decls) × Serves (view_tree tree) decls (view_core sound.core)) }
    // what breaks none and is served is answered
    ensures complete { (decls : Decls) (program : Typed) → Serves (view_tree tree) decls program → IsValueUnlessMemory result (λ sound. view_core sound.core ≡ program) }
    // a refusal is that of the first phase that refuses
    ensures refused { IfFault result (λ f. Unsound (view_tree tree) f.code f.at) }
{
    if has_interfaces(&tree) {
        return Err(Fail::Is(NOT_SERVED));
    }
    let decls = match declare(alloc, &tree) {
        Ok(decls) => decls,
        Err(Fail::Is(fault)) => return Err(Fail::Is(Refusal::of(fault))),
        Err(Fail::Memory) => return Err(Fail::Memory),
    };
    let core = match type_all(alloc, tree, &decls) {
        Ok(core) => core,
        Err(Fail::Is(fault)) => return Err(Fail::Is(Refusal::of(fault))),
        Err(Fail::Memory) => return Err(Fail::Memory),
    };
    let core = match own(alloc, core) {
        Ok(core) => core,
        Err(Fail::Is(fault)) => return Err(Fail::Is(Refusal::of(fault))),
        Err(Fail::Memory) => return Err(Fail::Memory),
    };
    match regions(alloc, &core) {
        Ok(()) => {}
        Err(Fail::Is(fault)) => return Err(Fail::Is(Refusal::of(fault))),
        Err(Fail::Memory) => return Err(Fail::Memory),
    }
    match isolates(&core) {
        Ok(()) => {}
        Err(fault) => return Err(Fail::Is(Refusal::of(fault))),
    }
    if !is_served(&core) {
        return Err(Fail::Is(NOT_SERVED));
    }
    Ok(Sound { core })
}
