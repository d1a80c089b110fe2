// Types as they are written.
ghost use Rattle.std.specs.Prelude.{◌≡◌, ◌++◌, OnOk};
ghost use Rattle.vale_syntax.specs.Canon.{rendered};
ghost use Rattle.vale_syntax.specs.Layout as l;
ghost use Rattle.vale_syntax.specs.View.{view_type};
ghost use Rattle.vale_syntax.specs.declared.token.Sign.TheVariants.{OpenBracket, CloseBracket};

use crate::pieces::{comma_gap, named, sign, word, word_gap};
use vale_base::{Memory, Text};
use vale_syntax::{NameAt, Sign, TypeExpr, Word};

/// `[]`.
pub fn brackets(text: &mut Vec<u8>) -> Result<(), Memory>
    ensures { OnOk result (text.new.items ≡ text.old.items ++ rendered (l.mark OpenBracket ++ l.mark CloseBracket)) }
{
    sign(text, Sign::OpenBracket)?;
    sign(text, Sign::CloseBracket)
}

pub fn type_expr(names: &[Text], text: &mut Vec<u8>, ty: &TypeExpr) -> Result<(), Memory>
    ensures { OnOk result (text.new.items ≡ text.old.items ++ rendered (l.lay_type names.now (view_type ty.now))) }
{
    match ty {
        TypeExpr::Int(_) => word(text, Word::Int),
        TypeExpr::Bool(_) => word(text, Word::Bool),
        TypeExpr::Str(_) => word(text, Word::Str),
        TypeExpr::Named(name) => named(names, text, *name),
        TypeExpr::Array(_, element) => {
            brackets(text)?;
            type_expr(names, text, element.get())
        }
        TypeExpr::Ref(_, to) => {
            sign(text, Sign::Ampersand)?;
            type_expr(names, text, to.get())
        }
        TypeExpr::ImmRef(_, to) => {
            sign(text, Sign::Ampersand)?;
            word_gap(text, Word::Imm)?;
            type_expr(names, text, to.get())
        }
        TypeExpr::Iso(_, root) => {
            word_gap(text, Word::Iso)?;
            type_expr(names, text, root.get())
        }
    }
}

/// Names with commas between them.
#[tactic(auto, using(crate::proofs::EachLaws::each_more))]
pub fn name_list(names: &[Text], text: &mut Vec<u8>, list: &[NameAt]) -> Result<(), Memory>
    ensures { OnOk result (text.new.items ≡ text.old.items ++ rendered (l.with_commas (l.named names.now) list.now)) }
{
    let [first, more @ ..] = list else {
        return Ok(());
    };
    named(names, text, *first)?;
    for name in more {
        comma_gap(text)?;
        named(names, text, *name)?;
    }
    Ok(())
}
