//! Single tokens.

ghost use Rattle.std.specs.Prelude.{◌≡◌};
ghost use Rattle.vale_reading.specs.Steps as s;
ghost use Rattle.vale_reading.specs.Reading as r;
ghost use Rattle.vale_reading.specs.ItemReading as i;
ghost use Rattle.vale_reading.specs.Gives.{Gives};

use crate::stop::Stop;
use vale_base::Spot;
use vale_syntax::{BinaryOp, Sign, Token, TokenKind, UnaryOp, Word};

fn is_sign(wanted: Sign, kind: &TokenKind) -> bool
    ensures { result ≡ s.is_sign wanted kind.now }
{
    match kind {
        TokenKind::Sign(sign) => *sign == wanted,
        _ => false,
    }
}

fn is_word(wanted: Word, kind: &TokenKind) -> bool
    ensures { result ≡ s.is_word wanted kind.now }
{
    match kind {
        TokenKind::Word(word) => *word == wanted,
        _ => false,
    }
}

/// Whether the sign comes next.
pub fn begins(wanted: Sign, tokens: &[Token]) -> bool
    ensures { result ≡ s.begins wanted tokens.now }
{
    match tokens {
        [first, ..] => is_sign(wanted, &first.kind),
        [] => false,
    }
}

/// Whether the word comes next.
pub fn begins_word(wanted: Word, tokens: &[Token]) -> bool
    ensures { result ≡ s.begins_word wanted tokens.now }
{
    match tokens {
        [first, ..] => is_word(wanted, &first.kind),
        [] => false,
    }
}

/// Takes the sign, and gives its spot.
#[tactic(auto, unfolding(crate::specs::Steps::sign_at))]
pub fn sign(wanted: Sign, tokens: &[Token]) -> Result<(Spot, &[Token]), Stop<'_>>
    ensures { Gives (λ x. (x.0, x.1.now)) result (s.sign_at wanted tokens.now) }
{
    let [first, rest @ ..] = tokens else {
        return Err(Stop::Unexpected(tokens));
    };
    if !is_sign(wanted, &first.kind) {
        return Err(Stop::Unexpected(tokens));
    }
    Ok((first.at, rest))
}

/// Takes the word, and gives its spot.
#[tactic(auto, unfolding(crate::specs::Steps::word_at))]
pub fn word(wanted: Word, tokens: &[Token]) -> Result<(Spot, &[Token]), Stop<'_>>
    ensures { Gives (λ x. (x.0, x.1.now)) result (s.word_at wanted tokens.now) }
{
    let [first, rest @ ..] = tokens else {
        return Err(Stop::Unexpected(tokens));
    };
    if !is_word(wanted, &first.kind) {
        return Err(Stop::Unexpected(tokens));
    }
    Ok((first.at, rest))
}

fn binary_op(kind: &TokenKind) -> Option<BinaryOp>
    ensures { result ≡ r.binary_op kind.now }
{
    match kind {
        TokenKind::Word(Word::Or) => Some(BinaryOp::Or),
        TokenKind::Word(Word::And) => Some(BinaryOp::And),
        TokenKind::Sign(Sign::Equal) => Some(BinaryOp::Equal),
        TokenKind::Sign(Sign::NotEqual) => Some(BinaryOp::NotEqual),
        TokenKind::Sign(Sign::Less) => Some(BinaryOp::Less),
        TokenKind::Sign(Sign::LessEqual) => Some(BinaryOp::LessEqual),
        TokenKind::Sign(Sign::Greater) => Some(BinaryOp::Greater),
        TokenKind::Sign(Sign::GreaterEqual) => Some(BinaryOp::GreaterEqual),
        TokenKind::Sign(Sign::Plus) => Some(BinaryOp::Add),
        TokenKind::Sign(Sign::Minus) => Some(BinaryOp::Sub),
        TokenKind::Sign(Sign::Star) => Some(BinaryOp::Mul),
        TokenKind::Sign(Sign::Slash) => Some(BinaryOp::Div),
        TokenKind::Sign(Sign::Percent) => Some(BinaryOp::Rem),
        _ => None,
    }
}

/// How many ranks an operator stands above the unary ones: 1 for `*` to 5 for `or`.
fn height(op: BinaryOp) -> usize
    ensures { result ≡ r.height op }
{
    match op {
        BinaryOp::Mul | BinaryOp::Div | BinaryOp::Rem => 1,
        BinaryOp::Add | BinaryOp::Sub => 2,
        BinaryOp::Equal
        | BinaryOp::NotEqual
        | BinaryOp::Less
        | BinaryOp::LessEqual
        | BinaryOp::Greater
        | BinaryOp::GreaterEqual => 3,
        BinaryOp::And => 4,
        BinaryOp::Or => 5,
    }
}

/// The operator of this height that the token is.
#[tactic(auto, unfolding(crate::specs::Reading::link_op))]
pub fn link_op(wanted: usize, token: &Token) -> Option<BinaryOp>
    ensures { result ≡ r.link_op wanted token.now.kind }
{
    let op = binary_op(&token.kind)?;
    if height(op) == wanted { Some(op) } else { None }
}

/// The operator that the token is before an operand.
pub fn unary_op(token: &Token) -> Option<UnaryOp>
    ensures { result ≡ r.unary_op token.now.kind }
{
    match &token.kind {
        TokenKind::Sign(Sign::Minus) => Some(UnaryOp::Minus),
        TokenKind::Word(Word::Not) => Some(UnaryOp::Not),
        TokenKind::Sign(Sign::Ampersand) => Some(UnaryOp::Borrow),
        TokenKind::Word(Word::Merge) => Some(UnaryOp::Merge),
        _ => None,
    }
}

/// How many operators of the height there may be. Comparisons don't chain.
pub fn most_links(height: usize, tokens: &[Token]) -> usize
    ensures { result ≡ r.most_links height tokens.now }
{
    if height == 3 { 1 } else { tokens.len() + 1 }
}

/// Whether the tokens after `[` are those of a destructuring.
fn after_bracket(tokens: &[Token]) -> bool
    ensures { result ≡ r.after_bracket tokens.now }
{
    let [first, rest @ ..] = tokens else {
        return false;
    };
    match &first.kind {
        TokenKind::Name(_) => true,
        TokenKind::Sign(Sign::CloseBracket) => begins(Sign::Assign, rest),
        _ => false,
    }
}

/// Whether a statement that begins with a name is a declaration.
pub fn begins_declaration(tokens: &[Token]) -> bool
    ensures { result ≡ r.begins_declaration tokens.now }
{
    match tokens {
        [_, rest @ ..] => begins(Sign::Assign, rest),
        [] => false,
    }
}

/// Whether a statement that begins with `[` is a destructuring.
pub fn begins_destructuring(tokens: &[Token]) -> bool
    ensures { result ≡ r.begins_destructuring tokens.now }
{
    match tokens {
        [_, rest @ ..] => after_bracket(rest),
        [] => false,
    }
}

/// Takes `pure` where it comes next.
#[tactic(auto, unfolding(crate::specs::ItemReading::purity_at))]
pub fn purity(tokens: &[Token]) -> Result<(bool, &[Token]), Stop<'_>>
    ensures { Gives (λ x. (x.0, x.1.now)) result (i.purity_at tokens.now) }
{
    if !begins_word(Word::Pure, tokens) {
        return Ok((false, tokens));
    }
    let (_, rest) = word(Word::Pure, tokens)?;
    Ok((true, rest))
}

/// Takes `!` where it comes next.
#[tactic(auto, unfolding(crate::specs::ItemReading::bang_at))]
pub fn bang(tokens: &[Token]) -> Result<(bool, &[Token]), Stop<'_>>
    ensures { Gives (λ x. (x.0, x.1.now)) result (i.bang_at tokens.now) }
{
    if !begins(Sign::Bang, tokens) {
        return Ok((false, tokens));
    }
    let (_, rest) = sign(Sign::Bang, tokens)?;
    Ok((true, rest))
}
