//! The readers of all levels: those of each take the next ones from here.

ghost use Rattle.std.specs.Prelude.{◌≡◌, map, option_map};
ghost use Rattle.vale_syntax.specs.View.{stmts_of, view_block, view_expr, view_stmt};
ghost use Rattle.vale_reading.specs.Reading as r;
ghost use Rattle.vale_reading.specs.Gives.{Gives};
ghost use Rattle.vale_blocks.specs.Deeper.{ranked_at};

use crate::level::{Level, Rank};
use vale_reading::{Found, Parser, Statements};
use vale_syntax::{Block, Expr, Token};

/// An expression.
#[cycle(nesting)]
fn expr<'t>(parser: &Parser<'_>, depth: usize, rank: Rank, tokens: &'t [Token]) -> Found<'t, Expr>
    ensures { Gives (λ x. (view_expr x.0, x.1.now)) result (ranked_at rank parser.now.names.now (r.within parser.now.names.now depth) tokens.now) }
{
    let level = Level {
        parser: &*parser,
        depth,
        expr,
        stmts,
    };
    match rank {
        Rank::Whole => level.whole(tokens),
        Rank::Operand => level.unary(tokens),
        Rank::Place => level.postfix(tokens),
    }
}

/// The statements of a block.
#[cycle(nesting)]
fn stmts<'t>(parser: &Parser<'_>, depth: usize, tokens: &'t [Token]) -> Found<'t, Statements>
    ensures { Gives (λ x. (stmts_of (map view_stmt x.0.0) (option_map view_expr x.0.1), x.1.now)) result (r.stmts_at parser.now.names.now (r.within parser.now.names.now depth) tokens.now) }
{
    let level = Level {
        parser: &*parser,
        depth,
        expr,
        stmts,
    };
    level.stmts(tokens)
}

/// A block.
pub fn block<'t>(parser: &Parser<'_>, depth: usize, tokens: &'t [Token]) -> Found<'t, Block>
    ensures { Gives (λ x. (view_block x.0, x.1.now)) result (r.block_at parser.now.names.now (r.within parser.now.names.now depth) tokens.now) }
{
    let level = Level {
        parser: &*parser,
        depth,
        expr,
        stmts,
    };
    level.block(tokens)
}
