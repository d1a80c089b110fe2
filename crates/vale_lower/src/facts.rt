// The facts of a program's code.
ghost use Rattle.std.specs.Prelude.{◌≡◌, ℕ, List, map, flat_map, length, IfOk};
ghost use Rattle.vale_rules_spec.specs.Typed as t;
ghost use Rattle.vale_core.specs.View.{view_core, view_function, view_item};
ghost use Rattle.vale_model.specs.Parts.{Parts, functions_of};
ghost use Rattle.vale_lowering.specs.Lowered.{lowered, lowered_function};
ghost use Rattle.vale_lower_facts.specs.Marks.{function_facts, lowered_facts};

use std::alloc::Global;
use vale_base::Memory;
use vale_cert::{Facts, FuncFacts};
use vale_code::{Code, Func, Sequence};
use vale_core::{Core, Function, Item};
use vale_lower_labels::function_facts;

// The functions that aren't methods, in order.
fn functions_in<'p>(alloc: Global, items: &'p [Item]) -> Result<Vec<&'p Function>, Memory>
    ensures { IfOk result (λ v. map (λ g. view_function g.now) v.items ≡ flat_map functions_of (map view_item items.now)) }
{
    let mut all = Vec::new(alloc);
    for item in items {
        if let Item::Function(function) = item {
            all.push(function)?;
        }
    }
    Ok(all)
}

// The facts of these functions, which have this code.
#[tactic(auto, using(crate::proofs::WholeLaws::facts))]
fn all_facts(
    alloc: Global,
    functions: &[&Function],
    funcs: &[Func],
) -> Result<Sequence<FuncFacts>, Memory>
    requires { length functions.now ≡ length funcs.now }
    ensures { IfOk result (λ facts. (p : Parts) (texts : List (List ℕ)) (fs : List t.Function) → funcs.now ≡ map (lowered_function p texts fs) (map (λ g. view_function g.now) functions.now) → facts ≡ map (function_facts p texts fs) (map (λ g. view_function g.now) functions.now)) }
{
    let mut facts = Sequence::new(alloc);
    for at in 0..functions.len() {
        facts.push(function_facts(alloc, functions[at], funcs[at].registers)?)?;
    }
    Ok(facts)
}

/// The facts that certify the code of a program. A number that would be 2^32 or more is want of memory.
pub fn lower_facts(alloc: Global, core: &Core, code: &Code) -> Result<Facts, Memory>
    requires { code.now ≡ lowered (view_core core.now) }
    ensures { IfOk result (λ f. f ≡ lowered_facts (view_core core.now)) }
{
    let functions = functions_in(alloc, core.items.as_slice())?;
    let facts = all_facts(alloc, &functions, code.funcs.as_slice())?;
    Facts::new(facts)
}
