//! The lines of functions and labels, and the whole text.

ghost use Rattle.std.specs.Prelude.{◌≡◌, ◌++◌, ◌<◌, true, slice_get, IfOk, OnOk};
ghost use Rattle.vale_cert.specs.Certificate.{Certified};
ghost use Rattle.vale_cert.specs.Known.{label_at, rise};
ghost use Rattle.vale_listing.specs.Labels.{rise_at, past, each_rises};
ghost use Rattle.vale_listing.specs.Listing.{label_line, body_lines, func_lines, funcs_lines, labels_of, text_of, listing};

use crate::instrs::{push_decimal, push_instr};
use std::alloc::Global;
use vale_base::{Memory, Text};
use vale_cert::{Facts, FuncFacts, Label};
use vale_code::{Code, Func, Instr};

// The line of the label at a place, where those left begin with it, and the labels after it.
fn push_label<'a>(
    text: &mut Vec<u8>,
    place: usize,
    labels: &'a [Label],
) -> Result<&'a [Label], Memory>
    requires { rise_at place labels.now ≡ true }
    ensures line { OnOk result (text.new.items ≡ text.old.items ++ label_line (label_at labels.now place)) }
    ensures left { IfOk result (λ left. left.now ≡ past place labels.now) }
{
    let [label, left @ ..] = labels else {
        return Ok(labels);
    };
    if label.at as usize != place {
        return Ok(labels);
    }
    text.extend_from_slice(b"label ")?;
    push_decimal(text, u64::from(label.at))?;
    text.push(b'\n')?;
    Ok(left)
}

// The instructions of a function, each after the label at its place.
fn push_body(text: &mut Vec<u8>, body: &[Instr], labels: &[Label]) -> Result<(), Memory>
    requires { rise labels.now ≡ true }
    ensures { OnOk result (text.new.items ≡ text.old.items ++ body_lines labels.now 0 body.now) }
{
    let mut left = labels;
    let mut place = 0;
    for instr in body {
        left = push_label(text, place, left)?;
        push_instr(text, place, instr)?;
        place += 1;
    }
    Ok(())
}

fn push_name(text: &mut Vec<u8>, texts: &[Text], name: u32) -> Result<(), Memory>
    ensures { OnOk result (text.new.items ≡ text.old.items ++ text_of (slice_get texts.now name)) }
{
    if let Some(name) = texts.get(name as usize) {
        text.extend_from_slice(name.as_slice())?;
    }
    Ok(())
}

pub fn push_func(
    text: &mut Vec<u8>,
    texts: &[Text],
    number: usize,
    func: &Func,
    labels: &[Label],
) -> Result<(), Memory>
    requires { rise labels.now ≡ true }
    ensures { OnOk result (text.new.items ≡ text.old.items ++ func_lines texts.now number func.now labels.now) }
{
    text.extend_from_slice(b"func ")?;
    push_decimal(text, number as u64)?;
    text.push(b' ')?;
    push_name(text, texts, func.name)?;
    text.push(b'\n')?;
    push_body(text, func.body.as_slice(), labels)
}

// The labels of a function.
fn labels_of(facts: &[FuncFacts], number: usize) -> &[Label]
    ensures { result.now ≡ labels_of (slice_get facts.now number) }
{
    match facts.get(number) {
        Some(facts) => facts.labels.as_slice(),
        None => &[],
    }
}

fn push_funcs(
    text: &mut Vec<u8>,
    texts: &[Text],
    funcs: &[Func],
    facts: &[FuncFacts],
) -> Result<(), Memory>
    requires { each_rises funcs.now facts.now ≡ true }
    ensures { OnOk result (text.new.items ≡ text.old.items ++ funcs_lines texts.now facts.now 0 funcs.now) }
{
    let mut number = 0;
    for func in funcs {
        push_func(text, texts, number, func, labels_of(facts, number))?;
        number += 1;
    }
    Ok(())
}

/// The text of certified code.
pub fn list(alloc: Global, code: &Code, facts: &Facts) -> Result<Vec<u8>, Memory>
    requires certified { Certified code.now facts.now }
    ensures { IfOk result (λ text. text.items ≡ listing code.now facts.now) }
{
    let mut text = Vec::new(alloc);
    push_funcs(
        &mut text,
        code.texts.as_slice(),
        code.funcs.as_slice(),
        facts.funcs.as_slice(),
    )?;
    Ok(text)
}
