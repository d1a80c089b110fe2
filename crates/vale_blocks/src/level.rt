//! The readers of a level, and those of the levels below it.

ghost use Rattle.std.specs.Prelude.{◌≡◌, ◌<◌, map, option_map};
ghost use Rattle.vale_syntax.specs.View.{stmts_of, view_expr, view_stmt};
ghost use Rattle.vale_reading.specs.Reading as r;
ghost use Rattle.vale_reading.specs.Gives.{Gives};
ghost use Rattle.vale_blocks.specs.Deeper.{ranked_at, ReadsExprs, ReadsStmts};

use vale_reading::{Found, Parser, Statements};
use vale_syntax::{Expr, Token};

/// How much of an expression is read.
#[derive(Clone, Copy, Debug, PartialEq, Eq)]
pub enum Rank {
    /// All of it.
    Whole,
    /// An operand: operators before it, and none after it.
    Operand,
    /// A primary and the steps after it.
    Place,
}

/// The readers of what stands where so many levels are left. They take those of the levels below as function values, so
/// that each reader is proved by itself.
#[derive(Clone, Copy)]
pub struct Level<'p, F, G> {
    pub parser: &'p Parser<'p>,
    pub depth: usize,
    /// Reads an expression where fewer levels are left.
    pub expr: F,
    /// Reads the statements of a block where fewer levels are left.
    pub stmts: G,
}

impl<
    F: for<'t> Fn(&Parser<'_>, usize, Rank, &'t [Token]) -> Found<'t, Expr>,
    G: for<'t> Fn(&Parser<'_>, usize, &'t [Token]) -> Found<'t, Statements>,
> Level<'_, F, G> {
    /// An expression where fewer levels are left.
    pub fn expr_below<'t>(&self, depth: usize, rank: Rank, tokens: &'t [Token]) -> Found<'t, Expr>
        requires exprs { ReadsExprs self.now.depth (F.pre self.now.expr) (F.post self.now.expr) }
        requires fewer { depth < self.now.depth }
        ensures { Gives (λ x. (view_expr x.0, x.1.now)) result (ranked_at rank self.now.parser.now.names.now (r.within self.now.parser.now.names.now depth) tokens.now) }
    {
        (self.expr)(self.parser, depth, rank, tokens)
    }

    /// The statements of a block where fewer levels are left.
    pub fn stmts_below<'t>(&self, depth: usize, tokens: &'t [Token]) -> Found<'t, Statements>
        requires stmts { ReadsStmts self.now.depth (G.pre self.now.stmts) (G.post self.now.stmts) }
        requires fewer { depth < self.now.depth }
        ensures { Gives (λ x. (stmts_of (map view_stmt x.0.0) (option_map view_expr x.0.1), x.1.now)) result (r.stmts_at self.now.parser.now.names.now (r.within self.now.parser.now.names.now depth) tokens.now) }
    {
        (self.stmts)(self.parser, depth, tokens)
    }
}
