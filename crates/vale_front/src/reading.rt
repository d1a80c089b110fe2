// From a text to its tree.
ghost use Rattle.std.specs.Prelude.{◌≡◌, IfOk};
ghost use Rattle.vale_base.specs.Faults.{IfFault, IsValueUnlessMemory};
ghost use Rattle.vale_front.specs.Front.{Unread};
ghost use Rattle.vale_syntax.specs.Tree as t;
ghost use Rattle.vale_syntax.specs.View.{view_tree};
ghost use Rattle.vale_rules_spec.specs.WellFormed.{Reads};

use crate::refusal::Refusal;
use std::alloc::Global;
use vale_base::{Fail, PROGRAM_LIMIT, Spot};
use vale_lexer::{LexFault, lex};
use vale_parser::{ParseFault, parse};
use vale_syntax::Tree;

const TOO_LONG: Refusal = Refusal {
    code: 1,
    at: Spot { line: 1, col: 1 },
};

/// The tree that a text is read as, or why it has none (docs/LANGUAGE.md, "Tokens" and "Grammar"). `Fail::Is` comes
/// where the text is too long, nothing cuts it or its tokens spell no tree, and only there; `Fail::Memory` may always
/// come.
pub fn read(alloc: Global, text: &[u8]) -> Result<Tree, Fail<Refusal>>
    // what is answered is read
    ensures found { IfOk result (λ tree. Reads text.now (view_tree tree)) }
    // what is read is answered
    ensures complete { (tree : t.Tree) → Reads text.now tree → IsValueUnlessMemory result (λ x. view_tree x ≡ tree) }
    // a refusal is that of the first phase that can't go on
    ensures refused { IfFault result (λ f. Unread text.now f.code f.at) }
{
    if text.len() > PROGRAM_LIMIT {
        return Err(Fail::Is(TOO_LONG));
    }
    let tokens = match lex(alloc, text) {
        Ok(tokens) => tokens,
        Err(Fail::Is(LexFault { code, at })) => return Err(Fail::Is(Refusal { code, at })),
        Err(Fail::Memory) => return Err(Fail::Memory),
    };
    match parse(alloc, &tokens) {
        Ok(tree) => Ok(tree),
        Err(Fail::Is(ParseFault { code, at })) => Err(Fail::Is(Refusal { code, at })),
        Err(Fail::Memory) => Err(Fail::Memory),
    }
}
