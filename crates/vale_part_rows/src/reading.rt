// From a text to its tree.
use std::alloc::Global;
use std::test::Fail;
use vale_base::{Fail as Refused, Memory, Spot};
use vale_lexer::{LexFault, lex};
use vale_parser::{ParseFault, parse};
use vale_syntax::Tree;

/// The text's tree, or the code and spot of its fault.
pub fn read(alloc: Global, text: &[u8]) -> Result<Result<Tree, (u8, Spot)>, Fail> {
    if text.len() > 1_048_576 {
        return Ok(Err((1, Spot { line: 1, col: 1 })));
    }
    let tokens = match lex(alloc, text) {
        Ok(tokens) => tokens,
        Err(Refused::Is(LexFault { code, at })) => return Ok(Err((code, at))),
        Err(Refused::Memory) => return Err(Memory.into()),
    };
    match parse(alloc, &tokens) {
        Ok(tree) => Ok(Ok(tree)),
        Err(Refused::Is(ParseFault { code, at })) => Ok(Err((code, at))),
        Err(Refused::Memory) => Err(Memory.into()),
    }
}
