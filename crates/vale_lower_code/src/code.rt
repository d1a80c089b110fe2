// The code of a program.
ghost use Rattle.std.specs.Prelude.{◌≡◌, map, IfOk};
ghost use Rattle.vale_core.specs.View.{view_core, view_function};
ghost use Rattle.vale_model.specs.Parts.{Parts};
ghost use Rattle.vale_lowering.specs.Lowered.{lowered, lowered_function};
ghost use Rattle.vale_lower_expr.specs.Held.{functions_of};

use crate::function::lower_function;
use std::alloc::Global;
use vale_base::{Memory, Text};
use vale_code::{Code, Func, Sequence};
use vale_core::Core;
use vale_lower_expr::{Functions, Texts, all_texts, number_of_main};

// The code of all functions.
fn lower_functions(
    alloc: Global,
    names: &[Text],
    all: &[Text],
    functions: &Functions,
) -> Result<Sequence<Func>, Memory>
    ensures { IfOk result (λ funcs. (p : Parts) → p.names ≡ names.now → funcs ≡ map (lowered_function p all.now (functions_of functions.now)) (functions_of functions.now)) }
{
    let texts = Texts::new(alloc, all)?;
    let each = functions.as_slice();
    let mut funcs = Sequence::new(alloc);
    for function in each {
        funcs.push(lower_function(alloc, names, &texts, &*functions, function)?)?;
    }
    Ok(funcs)
}

/// The code of a program. A part that isn't lowered yet has code by which no step follows. A number that would be 2^32 or
/// more is want of memory.
pub fn lower_code(alloc: Global, core: &Core) -> Result<Code, Memory>
    ensures { IfOk result (λ c. c ≡ lowered (view_core core.now)) }
{
    let names = core.names.as_slice();
    let items = core.items.as_slice();
    let functions = Functions::new(alloc, items)?;
    let each = functions.as_slice();
    let texts = all_texts(alloc, names, each)?;
    let all = texts.as_slice();
    let funcs = lower_functions(alloc, names, all, &functions)?;
    let main = number_of_main(names, each)?;
    let kinds = Sequence::new(alloc);
    let impls = Sequence::new(alloc);
    Code::new(texts, kinds, impls, funcs, main)
}
