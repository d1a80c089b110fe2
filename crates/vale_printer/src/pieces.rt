// The pieces of a layout, each added to the text.
ghost use Rattle.std.specs.Prelude.{◌≡◌, ◌++◌, suc, IfOk, OnOk};
ghost use Rattle.vale_syntax.specs.Canon.{rendered};
ghost use Rattle.vale_syntax.specs.Layout as l;
ghost use Rattle.vale_syntax.specs.declared.token.Sign.TheVariants.{Comma};
ghost use Rattle.vale_syntax.specs.declared.token.TokenKind.TheVariants as k;

use crate::bytes::{push_escaped, sign_text, word_text};
use itoa::Buffer;
use vale_base::{Memory, Name, Text};
use vale_syntax::{NameAt, Sign, Word};

pub fn word(text: &mut Vec<u8>, word: Word) -> Result<(), Memory>
    ensures { OnOk result (text.new.items ≡ text.old.items ++ rendered (l.key word)) }
{
    text.extend_from_slice(word_text(word).as_bytes())?;
    Ok(())
}

pub fn sign(text: &mut Vec<u8>, sign: Sign) -> Result<(), Memory>
    ensures { OnOk result (text.new.items ≡ text.old.items ++ rendered (l.mark sign)) }
{
    text.extend_from_slice(sign_text(sign).as_bytes())?;
    Ok(())
}

pub fn number(text: &mut Vec<u8>, number: i64) -> Result<(), Memory>
    ensures { OnOk result (text.new.items ≡ text.old.items ++ rendered (l.put (k.Number number))) }
{
    let mut buffer = Buffer::new();
    text.extend_from_slice(buffer.format(number).as_bytes())?;
    Ok(())
}

pub fn quote(text: &mut Vec<u8>, quote: &[u8]) -> Result<(), Memory>
    ensures { OnOk result (text.new.items ≡ text.old.items ++ rendered (l.put (k.Quote quote.now))) }
{
    text.push(b'"')?;
    push_escaped(text, quote)?;
    text.push(b'"')?;
    Ok(())
}

/// The text of a name, whose number is below that of the names in each tree that is spelled by tokens.
pub fn member(names: &[Text], text: &mut Vec<u8>, name: Name) -> Result<(), Memory>
    ensures { OnOk result (text.new.items ≡ text.old.items ++ rendered (l.member names.now name)) }
{
    if let Some(name) = names.get(name.0 as usize) {
        text.extend_from_slice(name.as_slice())?;
    }
    Ok(())
}

pub fn named(names: &[Text], text: &mut Vec<u8>, name: NameAt) -> Result<(), Memory>
    ensures { OnOk result (text.new.items ≡ text.old.items ++ rendered (l.named names.now name)) }
{
    member(names, text, name.name)
}

/// One space.
pub fn gap(text: &mut Vec<u8>) -> Result<(), Memory>
    ensures { OnOk result (text.new.items ≡ text.old.items ++ rendered l.gap) }
{
    text.push(b' ')?;
    Ok(())
}

pub fn new_line(text: &mut Vec<u8>, depth: usize) -> Result<(), Memory>
    ensures { OnOk result (text.new.items ≡ text.old.items ++ rendered (l.new_line depth)) }
{
    text.push(b'\n')?;
    for _ in 0..depth {
        text.extend_from_slice(b"  ")?;
    }
    Ok(())
}

/// A word and one space.
pub fn word_gap(text: &mut Vec<u8>, x: Word) -> Result<(), Memory>
    ensures { OnOk result (text.new.items ≡ text.old.items ++ rendered (l.key x ++ l.gap)) }
{
    word(text, x)?;
    gap(text)
}

/// A comma and one space.
pub fn comma_gap(text: &mut Vec<u8>) -> Result<(), Memory>
    ensures { OnOk result (text.new.items ≡ text.old.items ++ rendered (l.mark Comma ++ l.gap)) }
{
    sign(text, Sign::Comma)?;
    gap(text)
}

/// The depth of what stands inside braces. No text that fits into memory has a line of the greatest depth.
pub fn deeper(depth: usize) -> Result<usize, Memory>
    ensures { IfOk result (λ inner. inner ≡ suc depth) }
{
    depth.checked_add(1).ok_or(Memory)
}
