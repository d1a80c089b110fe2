//! The content of a file: texts, kinds, implementations, functions with their facts, and the number of `main`.

ghost use Rattle.std.specs.Prelude.{◌≡◌};
ghost use Rattle.vale_codec.specs.Format.{Gives, many_read};
ghost use Rattle.vale_codec.specs.Numbers.{text};
ghost use Rattle.vale_file_spec.specs.File.{texts, content};

use crate::funcs::{read_funcs, split_facts};
use crate::kinds::{read_impls, read_kinds};
use std::alloc::Global;
use vale_base::{Fail, Text};
use vale_cert::Facts;
use vale_code::{Code, Sequence};
use vale_codec::{Fault, Reason, read_word};

fn read_text(alloc: Global, bytes: &[u8]) -> Result<(Text, &[u8]), Fail<Fault>>
    ensures { Gives (λ x. (x.0, x.1.now)) result (text.read bytes.now) }
{
    let (count, rest) = read_word(bytes)?;
    let count = count as usize;
    if rest.len() < count {
        return Err(Fail::Is(Fault {
            reason: Reason::Ends,
            left: 0,
        }));
    }
    let (front, rest) = rest.split_at(count);
    let text = Text::from_slice(alloc, front)?;
    Ok((text, rest))
}

fn read_each_text(
    alloc: Global,
    count: u32,
    bytes: &[u8],
) -> Result<(Vec<Text>, &[u8]), Fail<Fault>>
    ensures { Gives (λ x. (x.0.items, x.1.now)) result (many_read text count bytes.now) }
{
    let mut parts = Vec::new(alloc);
    let mut rest = bytes;
    for _ in 0..count {
        let (part, after) = read_text(alloc, rest)?;
        parts.push(part)?;
        rest = after;
    }
    Ok((parts, rest))
}

#[tactic(auto, unfolding(vale_file_spec::specs::File::texts))]
fn read_texts(alloc: Global, bytes: &[u8]) -> Result<(Sequence<Text>, &[u8]), Fail<Fault>>
    ensures { Gives (λ x. (x.0, x.1.now)) result (texts.read bytes.now) }
{
    let (count, rest) = read_word(bytes)?;
    let (parts, rest) = read_each_text(alloc, count, rest)?;
    Ok((Sequence::from_vec(parts), rest))
}

/// The content of a file.
#[tactic(auto, unfolding(vale_file_spec::specs::File::content))]
pub fn read_content(alloc: Global, bytes: &[u8]) -> Result<((Code, Facts), &[u8]), Fail<Fault>>
    ensures { Gives (λ x. ((x.0.0, x.0.1), x.1.now)) result (content.read bytes.now) }
{
    let (texts, rest) = read_texts(alloc, bytes)?;
    let (kinds, rest) = read_kinds(alloc, rest)?;
    let (impls, rest) = read_impls(alloc, rest)?;
    let (pairs, rest) = read_funcs(alloc, rest)?;
    let (main, rest) = read_word(rest)?;
    let (funcs, facts) = split_facts(alloc, pairs)?;
    let code = Code::new(texts, kinds, impls, funcs, main)?;
    let facts = Facts::new(facts)?;
    Ok(((code, facts), rest))
}
