//! Functions with their facts, and the whole.

ghost use Rattle.std.specs.Prelude.{◌≡◌, None};
ghost use Rattle.std.specs.List.{AllByRecursion};
ghost use Rattle.vale_cert.specs.Shape.{shape_fault};
ghost use Rattle.vale_file_fits.specs.Fits.{LabelIsFit, FuncIsFit};
ghost use Rattle.vale_file_fits.specs.Tables.{InTables};
ghost use Rattle.vale_file_spec.specs.File.{reg, beside, front};

use crate::kinds::{each_impl_fits, each_kind_fits, each_ty_fits, ty_fits};
use crate::numbers::words_fit;
use crate::operands::each_instr_fits;
use vale_cert::{Facts, FuncFacts, Label, RegFact};
use vale_code::{Code, Func};

#[tactic(auto, using(crate::proofs::FuncFits::empty_fits, crate::proofs::FuncFits::held_fits))]
fn reg_fits(one: RegFact)
    ensures { reg.Fits one }
{
    match one {
        RegFact::Empty => {}
        RegFact::Held { ty, depth, .. } => {
            let _depth = depth;
            ty_fits(ty);
        }
    }
}

#[tactic(auto, using(crate::proofs::ListFits::all_more))]
fn each_reg_fits(parts: &[RegFact])
    ensures { AllByRecursion reg.Fits parts.now }
{
    for part in parts {
        reg_fits(*part);
    }
}

fn label_fits(one: &Label)
    ensures { LabelIsFit one.now }
{
    let _at = one.at;
    let _depth = one.depth;
    each_reg_fits(one.regs.as_slice());
}

#[tactic(auto, using(crate::proofs::ListFits::all_more))]
fn each_label_fits(parts: &[Label])
    ensures { AllByRecursion LabelIsFit parts.now }
{
    for part in parts {
        label_fits(part);
    }
}

#[tactic(auto, using(crate::proofs::FuncFits::func_fits))]
fn func_fits(func: &Func, facts: &FuncFacts)
    ensures { FuncIsFit (func.now, facts.now) }
{
    let _name = func.name;
    each_ty_fits(func.params.as_slice());
    ty_fits(func.result);
    let _registers = func.registers;
    each_instr_fits(func.body.as_slice());
    words_fit(&facts.live);
    each_label_fits(facts.labels.as_slice());
}

fn each_func_fits(funcs: &[Func], facts: &[FuncFacts])
    ensures { AllByRecursion FuncIsFit (beside funcs.now facts.now) }
{
    let mut left = funcs;
    let mut known = facts;
    while let [func, more @ ..] = left {
        let [fact, others @ ..] = known else {
            return;
        };
        func_fits(func, fact);
        left = more;
        known = others;
    }
}

/// A code with its facts has a spelling where its choices, forms and shapes lie in the tables of the format, and so where it
/// keeps rule 1: its numbers fit their fields by their types, as is known to whoever reads them.
#[tactic(auto, using(crate::proofs::WholeFits::whole_fits, crate::proofs::WholeFits::shaped_whole))]
pub fn code_fits(code: &Code, facts: &Facts)
    ensures tables { InTables code.now facts.now → front.Fits (tt, (1, (code.now, facts.now))) }
    ensures shaped { shape_fault code.now facts.now ≡ None → front.Fits (tt, (1, (code.now, facts.now))) }
{
    each_kind_fits(code.kinds.as_slice());
    each_impl_fits(code.impls.as_slice());
    each_func_fits(code.funcs.as_slice(), facts.funcs.as_slice());
    let _main = code.main;
    let _funcs = &facts.funcs;
}
