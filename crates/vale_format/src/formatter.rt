// The canonical text of what some tokens spell.
ghost use Rattle.std.specs.Prelude.{◌≡◌, ℕ, List, IfOk};
ghost use Rattle.vale_base.specs.Faults.{IfFault, IsValueUnlessMemory};
ghost use Rattle.vale_syntax.specs.Canon.{canon};
ghost use Rattle.vale_syntax.specs.Cut.{cut};
ghost use Rattle.vale_syntax.specs.Grammar.{spells};
ghost use Rattle.vale_syntax.specs.Round.{IsReadBack};
ghost use Rattle.vale_syntax.specs.Tree as t;
ghost use Rattle.vale_reading.specs.ItemReading.{all_of};
ghost use Rattle.vale_parser.specs.Refusal.{IsRefusal};
ghost use Rattle.vale_format.specs.Format.{IsFormatOf, IsFixed};
ghost use Rattle.vale_format.specs.Named.{IsNamed};

use std::alloc::Global;
use vale_base::Fail;
use vale_parser::{ParseFault, parse};
use vale_printer::print;
use vale_syntax::Tokens;

/// The canonical text of the tree that the tokens spell (docs/LANGUAGE.md, "Canonical text"). `Fail::Is` comes where they
/// spell none, and only there; `Fail::Memory` may always come.
pub fn format(alloc: Global, tokens: &Tokens) -> Result<Vec<u8>, Fail<ParseFault>>
    // what is answered is the canonical text of a tree that the tokens spell
    ensures found { IfOk result (λ text. (tree : t.Tree) × spells tree tokens.now.list × (text.items ≡ canon tree)) }
    // the canonical text of what is spelled is answered: a fault comes only where nothing is
    ensures complete { (tree : t.Tree) → spells tree tokens.now.list → IsValueUnlessMemory result (λ text. text.items ≡ canon tree) }
    // which fault it is, by the reader that looks at one token at a time
    ensures fault { IfFault result (λ f. IsRefusal tokens.now.end (all_of tokens.now.list) f) }
    // where the tokens are those of a text, the canonical text is read back as the same tree but for spots, and as no other
    ensures read_back { (source : List ℕ) (tree : t.Tree) → cut source tokens.now → spells tree tokens.now.list → IsReadBack tree }
    // what is formatted once stays as it is
    ensures fixed { (source text : List ℕ) → IsFormatOf source text → IsFixed text }
    // each name of the tree has a text of its own
    ensures named { (tree : t.Tree) → spells tree tokens.now.list → IsNamed tree }
{
    let tree = parse(alloc, tokens)?;
    let text = print(alloc, &tree)?;
    Ok(text)
}
