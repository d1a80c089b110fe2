//! The content of a file: texts, kinds, implementations, functions with their facts, and the number of `main`.

ghost use Rattle.std.specs.Prelude.{◌≡◌, ◌++◌, length, OnOk};
ghost use Rattle.std.specs.List.{flat_map};
ghost use Rattle.vale_codec.specs.Numbers.{text};
ghost use Rattle.vale_file_spec.specs.File.{func, funcs, texts, beside, content};

use crate::funcs::write_func;
use crate::kinds::{write_impls, write_kinds};
use vale_base::{Memory, Text};
use vale_cert::{Facts, FuncFacts};
use vale_code::{Code, Func, Sequence};
use vale_codec::{write_number, write_word};

fn write_text(out: &mut Vec<u8>, one: &Text) -> Result<(), Memory>
    ensures { OnOk result (out.new.items ≡ out.old.items ++ text.write one.now) }
{
    write_number(out, one.len() as u64)?;
    out.extend_from_slice(one.as_slice())?;
    Ok(())
}

fn write_each_text(out: &mut Vec<u8>, parts: &[Text]) -> Result<(), Memory>
    ensures { OnOk result (out.new.items ≡ out.old.items ++ flat_map text.write parts.now) }
{
    for part in parts {
        write_text(out, part)?;
    }
    Ok(())
}

#[tactic(auto, unfolding(vale_file_spec::specs::File::texts))]
fn write_texts(out: &mut Vec<u8>, parts: &Sequence<Text>) -> Result<(), Memory>
    ensures { OnOk result (out.new.items ≡ out.old.items ++ texts.write parts.now) }
{
    let parts = parts.as_slice();
    write_number(out, parts.len() as u64)?;
    write_each_text(out, parts)
}

fn write_each_func(out: &mut Vec<u8>, parts: &[Func], facts: &[FuncFacts]) -> Result<(), Memory>
    ensures { OnOk result (out.new.items ≡ out.old.items ++ flat_map func.write (beside parts.now facts.now)) }
{
    let mut left = parts;
    let mut known = facts;
    while let [func, more @ ..] = left {
        let [fact, others @ ..] = known else {
            return Ok(());
        };
        write_func(out, func, fact)?;
        left = more;
        known = others;
    }
    Ok(())
}

// How many functions have facts.
#[tactic(auto, using(crate::proofs::BesideLaws::fewer_facts, crate::proofs::BesideLaws::fewer_funcs))]
fn pairs(parts: &[Func], facts: &[FuncFacts]) -> usize
    ensures { result ≡ length (beside parts.now facts.now) }
{
    if facts.len() < parts.len() {
        facts.len()
    } else {
        parts.len()
    }
}

#[tactic(auto, unfolding(vale_file_spec::specs::File::funcs))]
fn write_funcs(out: &mut Vec<u8>, parts: &[Func], facts: &[FuncFacts]) -> Result<(), Memory>
    ensures { OnOk result (out.new.items ≡ out.old.items ++ funcs.write (beside parts.now facts.now)) }
{
    write_number(out, pairs(parts, facts) as u64)?;
    write_each_func(out, parts, facts)
}

/// The content of a file.
#[tactic(auto, unfolding(vale_file_spec::specs::File::content))]
pub fn write_content(out: &mut Vec<u8>, code: &Code, facts: &Facts) -> Result<(), Memory>
    ensures { OnOk result (out.new.items ≡ out.old.items ++ content.write (code.now, facts.now)) }
{
    write_texts(out, &code.texts)?;
    write_kinds(out, &code.kinds)?;
    write_impls(out, &code.impls)?;
    write_funcs(out, code.funcs.as_slice(), facts.funcs.as_slice())?;
    write_word(out, code.main)
}
