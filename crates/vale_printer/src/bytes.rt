// The bytes of words, signs and escapes.
ghost use Rattle.std.specs.Prelude.{◌≡◌, ◌++◌, OnOk};
ghost use Rattle.vale_syntax.specs.Bytes as b;
ghost use Rattle.vale_syntax.specs.Canon as c;

use vale_base::Memory;
use vale_syntax::{Sign, Word};

pub fn word_text(word: Word) -> &'static str
    ensures { result.now ≡ b.word_text word }
{
    match word {
        Word::Func => "func",
        Word::Pure => "pure",
        Word::Struct => "struct",
        Word::Interface => "interface",
        Word::Impl => "impl",
        Word::For => "for",
        Word::Iso => "iso",
        Word::Imm => "imm",
        Word::Set => "set",
        Word::Return => "return",
        Word::If => "if",
        Word::Else => "else",
        Word::While => "while",
        Word::Foreach => "foreach",
        Word::In => "in",
        Word::Parallel => "parallel",
        Word::Merge => "merge",
        Word::And => "and",
        Word::Or => "or",
        Word::Not => "not",
        Word::True => "true",
        Word::False => "false",
        Word::Int => "int",
        Word::Bool => "bool",
        Word::Str => "str",
    }
}

pub fn sign_text(sign: Sign) -> &'static str
    ensures { result.now ≡ b.sign_text sign }
{
    match sign {
        Sign::OpenBrace => "{",
        Sign::CloseBrace => "}",
        Sign::OpenParen => "(",
        Sign::CloseParen => ")",
        Sign::OpenBracket => "[",
        Sign::CloseBracket => "]",
        Sign::Comma => ",",
        Sign::Semicolon => ";",
        Sign::Dot => ".",
        Sign::DotDot => "..",
        Sign::Bang => "!",
        Sign::Ampersand => "&",
        Sign::Assign => "=",
        Sign::Equal => "==",
        Sign::NotEqual => "!=",
        Sign::Less => "<",
        Sign::LessEqual => "<=",
        Sign::Greater => ">",
        Sign::GreaterEqual => ">=",
        Sign::Plus => "+",
        Sign::Minus => "-",
        Sign::Star => "*",
        Sign::Slash => "/",
        Sign::Percent => "%",
    }
}

/// A byte of a quote's text, or its escape.
fn push_byte(text: &mut Vec<u8>, byte: u8) -> Result<(), Memory>
    ensures { OnOk result (text.new.items ≡ text.old.items ++ c.escaped byte) }
{
    match byte {
        b'\n' => text.extend_from_slice(b"\\n")?,
        b'\t' => text.extend_from_slice(b"\\t")?,
        b'\\' => text.extend_from_slice(b"\\\\")?,
        b'"' => text.extend_from_slice(b"\\\"")?,
        _ => text.push(byte)?,
    }
    Ok(())
}

/// What stands between the marks of a quote.
#[tactic(auto, using(crate::proofs::ByteLaws::escaped_more))]
pub fn push_escaped(text: &mut Vec<u8>, quote: &[u8]) -> Result<(), Memory>
    ensures { OnOk result (text.new.items ≡ text.old.items ++ c.all_escaped quote.now) }
{
    for byte in quote {
        push_byte(text, *byte)?;
    }
    Ok(())
}
