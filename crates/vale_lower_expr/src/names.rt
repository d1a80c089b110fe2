// The texts of names, and all texts of a code.
ghost use Rattle.std.specs.Prelude.{◌≡◌, ◌++◌, [], ℕ, map, flat_map, codes, slice_index_or, IfOk, OnOk};
ghost use Rattle.vale_rules_spec.specs.Declarations.{is_called, head_name};
ghost use Rattle.vale_core.specs.View.{view_function};
ghost use Rattle.vale_model.specs.Kinds.{head_of};
ghost use Rattle.vale_model.specs.Parts.{name_of};
ghost use Rattle.vale_lowering.specs.Scopes.{number_of_function};
ghost use Rattle.vale_lowering.specs.Texts.{function_quotes};

use crate::code_buffer::above;
use crate::quotes::add_block;
use std::alloc::Global;
use vale_base::{Memory, Name, Text};
use vale_code::Sequence;
use vale_core::Function;
use vale_names::is_called;

/// The text of a name, or none where the name has no text.
pub fn text_of<'n>(names: &'n [Text], name: Name) -> &'n [u8]
    ensures { result.now ≡ slice_index_or names.now name.0 [] }
{
    match names.get(name.0 as usize) {
        Some(text) => text.as_slice(),
        None => b"",
    }
}

// Puts the names of the functions at the end.
#[tactic(auto, using(crate::proofs::QuoteLaws::lists))]
fn add_names(
    alloc: Global,
    names: &[Text],
    functions: &[&Function],
    texts: &mut Sequence<Text>,
) -> Result<(), Memory>
    ensures { OnOk result (texts.new ≡ texts.old ++ map (λ g. slice_index_or names.now (name_of (view_function g.now)) []) functions.now) }
{
    for function in functions {
        let name = text_of(names, function.head.name.name);
        texts.push(Text::from_slice(alloc, name)?)?;
    }
    Ok(())
}

// Puts the quotes of the functions at the end.
#[tactic(auto, using(crate::proofs::QuoteLaws::lists))]
fn add_quotes(
    alloc: Global,
    functions: &[&Function],
    texts: &mut Sequence<Text>,
) -> Result<(), Memory>
    ensures { OnOk result (texts.new ≡ texts.old ++ flat_map (λ g. function_quotes (view_function g.now)) functions.now) }
{
    for function in functions {
        add_block(alloc, &function.body, texts)?;
    }
    Ok(())
}

/// The texts of the code of these functions: their names and their quotes.
pub fn all_texts(
    alloc: Global,
    names: &[Text],
    functions: &[&Function],
) -> Result<Sequence<Text>, Memory>
    ensures { IfOk result (λ texts. texts ≡ map (λ g. slice_index_or names.now (name_of (view_function g.now)) []) functions.now ++ flat_map (λ g. function_quotes (view_function g.now)) functions.now) }
{
    let mut texts = Sequence::new(alloc);
    add_names(alloc, names, functions, &mut texts)?;
    add_quotes(alloc, functions, &mut texts)?;
    Ok(texts)
}

/// The number of the function `main`, or how many there are where none is called so.
pub fn number_of_main(names: &[Text], functions: &[&Function]) -> Result<u32, Memory>
    ensures { IfOk result (λ n. n ≡ number_of_function (λ f. is_called names.now (codes "main") (head_name (head_of f))) (map (λ g. view_function g.now) functions.now)) }
{
    let mut at = 0;
    for function in functions {
        if is_called(names, b"main", function.head.name) {
            return Ok(at);
        }
        at = above(at)?;
    }
    Ok(at)
}
