//! The parser's state, and types.

ghost use Rattle.std.specs.Prelude.{◌≡◌, ◌<◌, Some, None, IfOk, IfErr, OnErr};
ghost use Rattle.vale_syntax.specs.View.{view_type};
ghost use Rattle.vale_reading.specs.Steps as s;
ghost use Rattle.vale_reading.specs.Reading as r;
ghost use Rattle.vale_reading.specs.ItemReading as i;
ghost use Rattle.vale_reading.specs.Gives.{Gives, IsTooDeep};

use crate::basic::{begins_word, sign, word};
use crate::names::Names;
use crate::stop::Stop;
use std::alloc::Global;
use vale_syntax::{NameAt, Sign, Token, TokenKind, TypeExpr, Word};

/// What every reader has: where it takes memory, and the numbers of the names. A reader is told how many levels of
/// nesting are left, and gives what it read and the tokens after it.
#[derive(Clone, Copy)]
pub struct Parser<'n> {
    pub alloc: Global,
    pub names: &'n Names<'n>,
}

impl Parser<'_> {
    /// The levels that are left after the token that opens one.
    #[tactic(auto, using(crate::proofs::Levels::within_more, crate::proofs::Levels::within_none, crate::proofs::Levels::one_more, crate::proofs::Levels::one_none))]
    pub fn below<'t>(&self, depth: usize, here: &'t [Token]) -> Result<usize, Stop<'t>>
        ensures less { IfOk result (λ d. d < depth) }
        ensures one { IfOk result (λ d. i.one_fewer depth ≡ Some d) }
        ensures ok { IfOk result (λ d. r.within self.now.names.now depth ≡ Some (r.inner_of self.now.names.now (r.within self.now.names.now d))) }
        ensures zero { OnErr result (i.one_fewer depth ≡ None) }
        ensures none { OnErr result (r.within self.now.names.now depth ≡ None) }
        ensures err { IfErr result (λ e. IsTooDeep e here.now) }
    {
        if depth == 0 {
            return Err(Stop::TooDeep(here));
        }
        Ok(depth - 1)
    }

    /// Takes a name.
    #[tactic(auto, unfolding(crate::specs::Steps::name_at))]
    pub fn name<'t>(&self, tokens: &'t [Token]) -> Result<(NameAt, &'t [Token]), Stop<'t>>
        ensures { Gives (λ x. (x.0, x.1.now)) result (s.name_at self.now.names.now tokens.now) }
    {
        let [first, rest @ ..] = tokens else {
            return Err(Stop::Unexpected(tokens));
        };
        let TokenKind::Name(text) = &first.kind else {
            return Err(Stop::Unexpected(tokens));
        };
        match self.names.number(text) {
            Some(name) => Ok((NameAt { name, at: first.at }, rest)),
            None => Err(Stop::Unexpected(tokens)),
        }
    }

    /// A type.
    #[cycle(types)]
    #[tactic(auto, unfolding(crate::specs::Reading::type_at))]
    pub fn type_expr<'t>(
        &self,
        depth: usize,
        tokens: &'t [Token],
    ) -> Result<(TypeExpr, &'t [Token]), Stop<'t>>
        ensures { Gives (λ x. (view_type x.0, x.1.now)) result (r.type_at self.now.names.now (r.within self.now.names.now depth) tokens.now) }
    {
        let [first, rest @ ..] = tokens else {
            return Err(Stop::Unexpected(tokens));
        };
        match &first.kind {
            TokenKind::Word(Word::Int) => Ok((TypeExpr::int(first.at), rest)),
            TokenKind::Word(Word::Bool) => Ok((TypeExpr::bool(first.at), rest)),
            TokenKind::Word(Word::Str) => Ok((TypeExpr::str(first.at), rest)),
            TokenKind::Name(_) => {
                let (name, rest) = self.name(tokens)?;
                Ok((TypeExpr::named(name), rest))
            }
            TokenKind::Sign(Sign::OpenBracket) => self.array_type(depth, tokens),
            TokenKind::Sign(Sign::Ampersand) => self.ref_type(depth, tokens),
            TokenKind::Word(Word::Iso) => self.iso_type(depth, tokens),
            _ => Err(Stop::Unexpected(tokens)),
        }
    }

    #[cycle(types)]
    #[tactic(auto, unfolding(crate::specs::Reading::array_type_at))]
    fn array_type<'t>(
        &self,
        depth: usize,
        tokens: &'t [Token],
    ) -> Result<(TypeExpr, &'t [Token]), Stop<'t>>
        ensures { Gives (λ x. (view_type x.0, x.1.now)) result (r.array_type_at self.now.names.now (r.within self.now.names.now depth) tokens.now) }
    {
        let (at, rest) = sign(Sign::OpenBracket, tokens)?;
        let deeper = self.below(depth, tokens)?;
        let (_, rest) = sign(Sign::CloseBracket, rest)?;
        let (element, rest) = self.type_expr(deeper, rest)?;
        Ok((TypeExpr::array(self.alloc, at, element)?, rest))
    }

    #[cycle(types)]
    #[tactic(auto, unfolding(crate::specs::Reading::ref_type_at))]
    fn ref_type<'t>(
        &self,
        depth: usize,
        tokens: &'t [Token],
    ) -> Result<(TypeExpr, &'t [Token]), Stop<'t>>
        ensures { Gives (λ x. (view_type x.0, x.1.now)) result (r.ref_type_at self.now.names.now (r.within self.now.names.now depth) tokens.now) }
    {
        let (at, rest) = sign(Sign::Ampersand, tokens)?;
        let deeper = self.below(depth, tokens)?;
        if begins_word(Word::Imm, rest) {
            let (_, rest) = word(Word::Imm, rest)?;
            let (to, rest) = self.type_expr(deeper, rest)?;
            return Ok((TypeExpr::imm_reference(self.alloc, at, to)?, rest));
        }
        let (to, rest) = self.type_expr(deeper, rest)?;
        Ok((TypeExpr::reference(self.alloc, at, to)?, rest))
    }

    #[cycle(types)]
    #[tactic(auto, unfolding(crate::specs::Reading::iso_type_at))]
    fn iso_type<'t>(
        &self,
        depth: usize,
        tokens: &'t [Token],
    ) -> Result<(TypeExpr, &'t [Token]), Stop<'t>>
        ensures { Gives (λ x. (view_type x.0, x.1.now)) result (r.iso_type_at self.now.names.now (r.within self.now.names.now depth) tokens.now) }
    {
        let (at, rest) = word(Word::Iso, tokens)?;
        let deeper = self.below(depth, tokens)?;
        let (root, rest) = self.type_expr(deeper, rest)?;
        Ok((TypeExpr::isolate(self.alloc, at, root)?, rest))
    }
}
