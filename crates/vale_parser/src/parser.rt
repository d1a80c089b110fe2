//! A whole program.

ghost use Rattle.std.specs.Prelude.{◌≡◌, ◌⊎◌, List, Ok, map, IfOk};
ghost use Rattle.vale_base.specs.Faults.{IfFault, IsFaultUnlessMemory, IsValueUnlessMemory};
ghost use Rattle.vale_syntax.specs.Tree as t;
ghost use Rattle.vale_syntax.specs.Grammar.{spells};
ghost use Rattle.vale_syntax.specs.View.{view_item, view_tree};
ghost use Rattle.vale_reading.specs.ItemReading as i;
ghost use Rattle.vale_reading.specs.Gives.{Gives};
ghost use Rattle.vale_prefix_spec.specs.Begins.{StopsAt};
ghost use Rattle.vale_parser.specs.Refusal.{spot_at, IsRefusal, IsUnexpected, IsGoneThrough};
ghost use Rattle.vale_parser.specs.TooMany.{OpensTooMany};

use crate::items::items;
use sqlite_items::Items;
use std::alloc::Global;
use vale_base::{Fail, LEVEL_LIMIT, Spot};
use vale_held::Held;
use vale_reading::{Names, Parser, Stop, read};
use vale_syntax::{Item, Token, Tokens, Tree};

/// Why the tokens spell no tree, and where: 5 where no program of any nesting begins through the token, 6 where it opens
/// level 65. Where the tokens end too early it is 5 at their end.
#[derive(Clone, Copy, Debug, PartialEq, Eq)]
pub struct ParseFault {
    pub code: u8,
    pub at: Spot,
}

/// The spot of the first token, or of the end.
fn spot_at(tokens: &[Token], end: Spot) -> Spot
    ensures { result ≡ spot_at end tokens.now }
{
    match tokens {
        [first, ..] => first.at,
        [] => end,
    }
}

/// The items, by the names' numbers.
#[tactic(auto, unfolding(vale_reading::specs::ItemReading::items_at))]
fn items_of<'t>(
    alloc: Global,
    names: &Names<'_>,
    tokens: &'t [Token],
) -> Result<Items<Item>, Stop<'t>>
    ensures { Gives (map view_item) result (i.items_of names.now tokens.now) }
{
    let parser = Parser { alloc, names };
    let (items, _) = read!(items(&parser, LEVEL_LIMIT, tokens));
    Ok(items)
}

#[tactic(auto, unfolding(vale_reading::specs::ItemReading::all_of))]
fn read_tree<'t>(alloc: Global, tokens: &'t [Token]) -> Result<Tree, Stop<'t>>
    ensures { Gives view_tree result (i.all_of tokens.now) }
{
    let names = Names::of(alloc, tokens)?;
    let items = read!(items_of(alloc, &names, tokens));
    let items = Held::new(items);
    let names = names.to_items(alloc)?;
    Ok(Tree {
        names,
        items: items.into_inner(),
    })
}

/// The tree that the tokens spell.
#[tactic(auto, using(crate::proofs::Answered::is_found, crate::proofs::Answered::is_complete, crate::proofs::Answered::is_none, crate::proofs::Answered::is_unexpected, crate::proofs::Answered::is_gone_through, crate::proofs::OnlyLevels::is_deep))]
pub fn parse(alloc: Global, tokens: &Tokens) -> Result<Tree, Fail<ParseFault>>
    // What is answered is spelled by the tokens.
    ensures found { IfOk result (λ tree. spells (view_tree tree) tokens.now.list) }
    // What is spelled is answered: the tokens have at most one tree, and a fault comes only where they have none.
    ensures complete { (tree : t.Tree) → spells tree tokens.now.list → IsValueUnlessMemory result (λ x. view_tree x ≡ tree) }
    // Which fault it is, by the reader that looks at one token at a time.
    ensures fault { IfFault result (λ f. IsRefusal tokens.now.end (i.all_of tokens.now.list) f) }
    // Code 6 comes only where the fault's token opens a level too many: a reader that has more levels gets past it.
    ensures deep { IfFault result (λ f. f.code ≡ 6 → OpensTooMany tokens.now.end tokens.now.list f) }
    // Code 5 comes only at the first token that no program of any nesting goes through, or at the end.
    ensures unexpected { IfFault result (λ f. f.code ≡ 5 → IsUnexpected tokens.now.end tokens.now.list f) }
    // Where the tokens stop to begin a program, a fault is answered: code 5 there, or code 6.
    ensures stopped { (left : List Token) → StopsAt tokens.now.list left → IsFaultUnlessMemory result (λ f. f.code ≡ 6 ⊎ (f.code ≡ 5) × (f.at ≡ spot_at tokens.now.end left)) }
    // Code 6 comes only at a token that a program of some nesting goes through.
    ensures through { IfFault result (λ f. f.code ≡ 6 → IsGoneThrough tokens.now.end tokens.now.list f) }
    // There is at most one tree.
    ensures unique { (one other : t.Tree) → spells one tokens.now.list → spells other tokens.now.list → one ≡ other }
{
    let list = tokens.list.as_slice();
    match read_tree(alloc, list) {
        Ok(tree) => Ok(tree),
        Err(Stop::Memory) => Err(Fail::Memory),
        Err(Stop::Unexpected(rest)) => Err(Fail::Is(ParseFault {
            code: 5,
            at: spot_at(rest, tokens.end),
        })),
        Err(Stop::TooDeep(rest)) => Err(Fail::Is(ParseFault {
            code: 6,
            at: spot_at(rest, tokens.end),
        })),
    }
}
