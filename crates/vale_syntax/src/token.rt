//! Tokens (docs/LANGUAGE.md, "Tokens").

use std::marker::Model;
use vale_base::{Spot, Text};

/// A word of the language, which is no name.
#[derive(Clone, Copy, Debug, PartialEq, Eq)]
pub enum Word {
    Func,
    Pure,
    Struct,
    Interface,
    Impl,
    For,
    Iso,
    Imm,
    Set,
    Return,
    If,
    Else,
    While,
    Foreach,
    In,
    Parallel,
    Merge,
    And,
    Or,
    Not,
    True,
    False,
    Int,
    Bool,
    Str,
}

/// A sign of one or two bytes.
#[derive(Clone, Copy, Debug, PartialEq, Eq)]
pub enum Sign {
    OpenBrace,
    CloseBrace,
    OpenParen,
    CloseParen,
    OpenBracket,
    CloseBracket,
    Comma,
    Semicolon,
    Dot,
    DotDot,
    Bang,
    Ampersand,
    Assign,
    Equal,
    NotEqual,
    Less,
    LessEqual,
    Greater,
    GreaterEqual,
    Plus,
    Minus,
    Star,
    Slash,
    Percent,
}

/// What a token is. A number is at least 0; a quote has its text, each escape replaced by the byte that it stands for.
#[derive(Drop)]
pub enum TokenKind {
    Word(Word),
    Name(Text),
    Number(i64),
    Quote(Text),
    Sign(Sign),
}

/// A token and the spot of its first byte.
#[derive(Drop)]
pub struct Token {
    pub kind: TokenKind,
    pub at: Spot,
}

/// Tokens in order, which contracts see as their list.
#[derive(Drop)]
pub struct TokenList {
    tokens: Vec<Token>,
}

impl Model for TokenList {
    ghost use Rattle.std.specs.Prelude.{List};
    ghost use Rattle.vale_syntax.specs.declared.token.Token.{Token};

    ghost Value = { List Token };

    ghost view = { λ l. l.tokens.items };
}

impl TokenList {
    ghost use Rattle.std.specs.Prelude.{◌≡◌};

    /// These tokens. It takes no memory.
    pub fn from_vec(tokens: Vec<Token>) -> Self
        ensures { result ≡ tokens.items }
    {
        TokenList { tokens }
    }

    /// The tokens.
    pub fn as_slice(&self) -> &[Token]
        ensures { result.now ≡ self.now }
    {
        &self.tokens
    }

    /// The tokens, given back. It takes no memory.
    pub fn into_vec(self) -> Vec<Token>
        ensures { result.items ≡ self }
    {
        self.tokens
    }
}

/// The tokens of a text, and the spot one past its last byte.
#[derive(Drop)]
pub struct Tokens {
    pub list: TokenList,
    pub end: Spot,
}
