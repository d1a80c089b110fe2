// Operators, and what stands after words.
ghost use Rattle.std.specs.Prelude.{◌≡◌, ◌++◌, OnOk};
ghost use Rattle.vale_syntax.specs.Canon.{rendered, text_of};
ghost use Rattle.vale_syntax.specs.Grammar.{binary_kind, unary_kind, truth_kind};
ghost use Rattle.vale_syntax.specs.Layout as l;
ghost use Rattle.vale_syntax.specs.View.{view_expr};
ghost use Rattle.vale_syntax.specs.declared.token.Sign.TheVariants as s;
ghost use Rattle.vale_syntax.specs.declared.token.Word.TheVariants as w;

use crate::pieces::{gap, named, new_line, sign, word, word_gap};
use vale_base::{Memory, Text};
use vale_syntax::{BinaryOp, Expr, NameAt, Sign, UnaryOp, Word};

/// Whether the expression's first token is a `(`.
fn opens(e: &Expr) -> bool
    ensures { result ≡ l.opens (view_expr e.now) }
{
    match e {
        Expr::Paren(..) => true,
        Expr::Chain(first, _) => opens(first.get()),
        Expr::Steps(base, _) => opens(base.get()),
        _ => false,
    }
}

/// What stands between a word and the expression after it.
pub fn after_word(text: &mut Vec<u8>, e: &Expr) -> Result<(), Memory>
    ensures { OnOk result (text.new.items ≡ text.old.items ++ rendered (l.after_word (view_expr e.now))) }
{
    if opens(e) {
        return Ok(());
    }
    gap(text)
}

pub fn truth(text: &mut Vec<u8>, truth: bool) -> Result<(), Memory>
    ensures { OnOk result (text.new.items ≡ text.old.items ++ rendered (l.put (truth_kind truth))) }
{
    if truth {
        word(text, Word::True)
    } else {
        word(text, Word::False)
    }
}

/// An operator and what stands between it and its only operand.
pub fn unary_op(text: &mut Vec<u8>, op: UnaryOp, operand: &Expr) -> Result<(), Memory>
    ensures { OnOk result (text.new.items ≡ text.old.items ++ rendered (l.put (unary_kind op) ++ l.after_unary op (view_expr operand.now))) }
{
    match op {
        UnaryOp::Minus => sign(text, Sign::Minus),
        UnaryOp::Borrow => sign(text, Sign::Ampersand),
        UnaryOp::Not => {
            word(text, Word::Not)?;
            after_word(text, operand)
        }
        UnaryOp::Merge => {
            word(text, Word::Merge)?;
            after_word(text, operand)
        }
    }
}

fn binary_text(op: BinaryOp) -> &'static str
    ensures { result.now ≡ text_of (binary_kind op) }
{
    match op {
        BinaryOp::Or => "or",
        BinaryOp::And => "and",
        BinaryOp::Equal => "==",
        BinaryOp::NotEqual => "!=",
        BinaryOp::Less => "<",
        BinaryOp::LessEqual => "<=",
        BinaryOp::Greater => ">",
        BinaryOp::GreaterEqual => ">=",
        BinaryOp::Add => "+",
        BinaryOp::Sub => "-",
        BinaryOp::Mul => "*",
        BinaryOp::Div => "/",
        BinaryOp::Rem => "%",
    }
}

/// An operator between two operands, with its spaces.
pub fn binary_op(text: &mut Vec<u8>, op: BinaryOp) -> Result<(), Memory>
    ensures { OnOk result (text.new.items ≡ text.old.items ++ rendered (l.around (l.put (binary_kind op)))) }
{
    gap(text)?;
    text.extend_from_slice(binary_text(op).as_bytes())?;
    gap(text)
}

/// `=` with its spaces.
pub fn assign(text: &mut Vec<u8>) -> Result<(), Memory>
    ensures { OnOk result (text.new.items ≡ text.old.items ++ rendered (l.around (l.mark s.Assign))) }
{
    gap(text)?;
    sign(text, Sign::Assign)?;
    gap(text)
}

/// `foreach`, the loop's name and `in`, with their spaces.
pub fn loop_head(names: &[Text], text: &mut Vec<u8>, name: NameAt) -> Result<(), Memory>
    ensures { OnOk result (text.new.items ≡ text.old.items ++ rendered (l.key w.Foreach ++ l.gap ++ l.named names.now name ++ l.around (l.key w.In))) }
{
    word_gap(text, Word::Foreach)?;
    named(names, text, name)?;
    gap(text)?;
    word_gap(text, Word::In)
}

/// A line for a `}` of this depth.
pub fn close_block(text: &mut Vec<u8>, depth: usize) -> Result<(), Memory>
    ensures { OnOk result (text.new.items ≡ text.old.items ++ rendered (l.new_line depth ++ l.mark s.CloseBrace)) }
{
    new_line(text, depth)?;
    sign(text, Sign::CloseBrace)
}

/// `else if` after a `}`.
pub fn else_if_words(text: &mut Vec<u8>) -> Result<(), Memory>
    ensures { OnOk result (text.new.items ≡ text.old.items ++ rendered (l.gap ++ l.key w.Else ++ l.gap ++ l.key w.If)) }
{
    gap(text)?;
    word_gap(text, Word::Else)?;
    word(text, Word::If)
}
