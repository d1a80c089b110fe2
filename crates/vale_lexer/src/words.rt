// The words, and the names that are none.
ghost use Rattle.std.specs.Prelude.{◌≡◌, IfOk};
ghost use Rattle.std.specs.Str.{bytes_eq};
ghost use Rattle.vale_syntax.specs.Bytes.{word_text};
ghost use Rattle.vale_lexer.specs.Next.{word_of, name_kind};

use std::alloc::Global;
use vale_base::{Memory, Text};
use vale_syntax::{TokenKind, Word};

// How many bytes the shortest words have, and the longest.
const SHORTEST: usize = 2;

const LONGEST: usize = 9;

const WORDS: [Word; 25] = [
    Word::Func,
    Word::Pure,
    Word::Struct,
    Word::Interface,
    Word::Impl,
    Word::For,
    Word::Iso,
    Word::Imm,
    Word::Set,
    Word::Return,
    Word::If,
    Word::Else,
    Word::While,
    Word::Foreach,
    Word::In,
    Word::Parallel,
    Word::Merge,
    Word::And,
    Word::Or,
    Word::Not,
    Word::True,
    Word::False,
    Word::Int,
    Word::Bool,
    Word::Str,
];

fn text_of(word: Word) -> &'static [u8]
    ensures { result.now ≡ word_text word }
{
    match word {
        Word::Func => b"func",
        Word::Pure => b"pure",
        Word::Struct => b"struct",
        Word::Interface => b"interface",
        Word::Impl => b"impl",
        Word::For => b"for",
        Word::Iso => b"iso",
        Word::Imm => b"imm",
        Word::Set => b"set",
        Word::Return => b"return",
        Word::If => b"if",
        Word::Else => b"else",
        Word::While => b"while",
        Word::Foreach => b"foreach",
        Word::In => b"in",
        Word::Parallel => b"parallel",
        Word::Merge => b"merge",
        Word::And => b"and",
        Word::Or => b"or",
        Word::Not => b"not",
        Word::True => b"true",
        Word::False => b"false",
        Word::Int => b"int",
        Word::Bool => b"bool",
        Word::Str => b"str",
    }
}

// Whether the texts are the same. Two lengths are compared faster than two texts.
fn is_same(text: &[u8], name: &[u8]) -> bool
    ensures { result ≡ bytes_eq text.now name.now }
{
    if text.len() != name.len() {
        return false;
    }
    text == name
}

// The word that a name is, if it isn't too short or too long for one.
#[tactic(auto, using(crate::proofs::WordLemmas::no_short, crate::proofs::WordLemmas::no_long))]
fn word_of(name: &[u8]) -> Option<Word>
    ensures { result ≡ word_of name.now }
{
    if name.len() < SHORTEST {
        return None;
    }
    if name.len() > LONGEST {
        return None;
    }
    find_word(name)
}

#[tactic(auto, unfolding(crate::specs::Next::word_of))]
fn find_word(name: &[u8]) -> Option<Word>
    ensures { result ≡ word_of name.now }
{
    WORDS
        .iter()
        .copied()
        .find(|word| is_same(text_of(*word), name))
}

/// The word that a name is, or the name.
pub fn name_kind(alloc: Global, name: &[u8]) -> Result<TokenKind, Memory>
    ensures { IfOk result (λ kind. kind ≡ name_kind name.now) }
{
    match word_of(name) {
        Some(word) => Ok(TokenKind::Word(word)),
        None => Ok(TokenKind::Name(Text::from_slice(alloc, name)?)),
    }
}
