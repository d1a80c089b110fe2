//! Functions with their facts, into a file.

ghost use Rattle.std.specs.Prelude.{◌≡◌, ◌++◌, length, OnOk};
ghost use Rattle.std.specs.List.{flat_map};
ghost use Rattle.vale_codec.specs.Numbers.{spell};
ghost use Rattle.vale_file_spec.specs.Types.{ty};
ghost use Rattle.vale_file_spec.specs.Instructions.{instr};
ghost use Rattle.vale_file_spec.specs.File.{held, reg, label_write, labels, live, instrs, head, func};

use crate::instrs::{write_instr, write_words};
use crate::kinds::{write_ty, write_tys};
use vale_base::Memory;
use vale_cert::{FuncFacts, Label, RegFact};
use vale_code::{Func, Instr, Sequence};
use vale_codec::{write_number, write_word};

#[tactic(auto, unfolding(vale_file_spec::specs::File::held, vale_file_spec::specs::File::reg))]
fn write_reg(out: &mut Vec<u8>, one: RegFact) -> Result<(), Memory>
    ensures { OnOk result (out.new.items ≡ out.old.items ++ reg.write one) }
{
    match one {
        RegFact::Empty => write_number(out, 0),
        RegFact::Held { ty, depth, live } => {
            if live {
                write_number(out, 2)?;
            } else {
                write_number(out, 1)?;
            }
            write_ty(out, ty)?;
            write_word(out, depth)
        }
    }
}

fn write_each_reg(out: &mut Vec<u8>, parts: &[RegFact]) -> Result<(), Memory>
    ensures { OnOk result (out.new.items ≡ out.old.items ++ flat_map reg.write parts.now) }
{
    for part in parts {
        write_reg(out, *part)?;
    }
    Ok(())
}

fn write_label(out: &mut Vec<u8>, one: &Label) -> Result<(), Memory>
    ensures { OnOk result (out.new.items ≡ out.old.items ++ label_write one.now) }
{
    write_word(out, one.at)?;
    write_word(out, one.depth)?;
    write_each_reg(out, one.regs.as_slice())
}

fn write_each_label(out: &mut Vec<u8>, parts: &[Label]) -> Result<(), Memory>
    ensures { OnOk result (out.new.items ≡ out.old.items ++ flat_map label_write parts.now) }
{
    for part in parts {
        write_label(out, part)?;
    }
    Ok(())
}

fn write_labels(out: &mut Vec<u8>, parts: &Sequence<Label>) -> Result<(), Memory>
    ensures { OnOk result (out.new.items ≡ out.old.items ++ (spell (length parts.now) ++ flat_map label_write parts.now)) }
{
    let parts = parts.as_slice();
    write_number(out, parts.len() as u64)?;
    write_each_label(out, parts)
}

fn write_each_instr(out: &mut Vec<u8>, parts: &[Instr]) -> Result<(), Memory>
    ensures { OnOk result (out.new.items ≡ out.old.items ++ flat_map instr.write parts.now) }
{
    for part in parts {
        write_instr(out, part)?;
    }
    Ok(())
}

#[tactic(auto, unfolding(vale_file_spec::specs::File::instrs))]
fn write_instrs(out: &mut Vec<u8>, parts: &Sequence<Instr>) -> Result<(), Memory>
    ensures { OnOk result (out.new.items ≡ out.old.items ++ instrs.write parts.now) }
{
    let parts = parts.as_slice();
    write_number(out, parts.len() as u64)?;
    write_each_instr(out, parts)
}

#[tactic(auto, unfolding(vale_file_spec::specs::File::live))]
fn write_live(out: &mut Vec<u8>, form: u8, list: &Sequence<u32>) -> Result<(), Memory>
    ensures { OnOk result (out.new.items ≡ out.old.items ++ (live form).write list.now) }
{
    match form {
        0 => Ok(()),
        1 => Ok(()),
        2 => write_words(out, list),
        3 => Ok(()),
        _ => Ok(()),
    }
}

#[tactic(auto, unfolding(vale_file_spec::specs::File::head))]
fn write_head(out: &mut Vec<u8>, one: &Func) -> Result<(), Memory>
    ensures { OnOk result (out.new.items ≡ out.old.items ++ head.write (one.now.name, (one.now.form, (one.now.params, (one.now.result, one.now.registers))))) }
{
    write_word(out, one.name)?;
    write_number(out, u64::from(one.form))?;
    write_tys(out, &one.params)?;
    write_ty(out, one.result)?;
    write_word(out, one.registers)
}

#[tactic(auto, unfolding(vale_file_spec::specs::File::func, vale_file_spec::specs::File::labels, vale_file_spec::specs::File::label))]
pub fn write_func(out: &mut Vec<u8>, one: &Func, facts: &FuncFacts) -> Result<(), Memory>
    ensures { OnOk result (out.new.items ≡ out.old.items ++ func.write (one.now, facts.now)) }
{
    write_head(out, one)?;
    write_instrs(out, &one.body)?;
    write_live(out, one.form, &facts.live)?;
    write_labels(out, &facts.labels)
}
