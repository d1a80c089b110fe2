//! Instructions, from a file.

ghost use Rattle.std.specs.Prelude.{◌≡◌, ◌≤◌, ◌<◌};
ghost use Rattle.vale_codec.specs.Format.{Gives, many_read, pick};
ghost use Rattle.vale_file_spec.specs.Types.{word};
ghost use Rattle.vale_file_spec.specs.Instructions.{words, word_signed, word_bit, two_words, three_words_spot, word_choice_two_words, four_words_spot, two_words_spot, two_words_list_spot, four_words_list_spot, word_kind_list, three_words, four_words, list_word, word_spot, three_words_list_spot, two_words_kind, instr_forms, instr};

use crate::types::{read_kind_number, read_signed, read_spot};
use std::alloc::Global;
use vale_base::{Fail, Kind, Spot};
use vale_code::{Instr, Sequence};
use vale_codec::{Fault, read_choice, read_word};

// So many numbers.
fn read_each_word(alloc: Global, count: u32, bytes: &[u8]) -> Result<(Vec<u32>, &[u8]), Fail<Fault>>
    ensures { Gives (λ x. (x.0.items, x.1.now)) result (many_read word count bytes.now) }
{
    let mut parts = Vec::new(alloc);
    let mut rest = bytes;
    for _ in 0..count {
        let (part, after) = read_word(rest)?;
        parts.push(part)?;
        rest = after;
    }
    Ok((parts, rest))
}

/// A list of numbers.
#[tactic(auto, unfolding(vale_file_spec::specs::Instructions::words))]
pub fn read_words(alloc: Global, bytes: &[u8]) -> Result<(Sequence<u32>, &[u8]), Fail<Fault>>
    ensures { Gives (λ x. (x.0, x.1.now)) result (words.read bytes.now) }
{
    let (count, rest) = read_word(bytes)?;
    let (parts, rest) = read_each_word(alloc, count, rest)?;
    Ok((Sequence::from_vec(parts), rest))
}

#[tactic(auto, unfolding(vale_file_spec::specs::Instructions::word_signed))]
fn read_word_signed(bytes: &[u8]) -> Result<((u32, i64), &[u8]), Fail<Fault>>
    ensures { Gives (λ x. ((x.0.0, x.0.1), x.1.now)) result (word_signed.read bytes.now) }
{
    let (first, rest) = read_word(bytes)?;
    match read_signed(rest) {
        Ok((second, rest)) => Ok(((first, second), rest)),
        Err(fault) => Err(fault),
    }
}

#[tactic(auto, unfolding(vale_file_spec::specs::Instructions::word_bit))]
fn read_word_bit(bytes: &[u8]) -> Result<((u32, u8), &[u8]), Fail<Fault>>
    ensures { Gives (λ x. ((x.0.0, x.0.1), x.1.now)) result (word_bit.read bytes.now) }
{
    let (first, rest) = read_word(bytes)?;
    match read_choice(rest, 1) {
        Ok((second, rest)) => Ok(((first, second), rest)),
        Err(fault) => Err(fault),
    }
}

#[tactic(auto, unfolding(vale_file_spec::specs::Instructions::two_words))]
fn read_two_words(bytes: &[u8]) -> Result<((u32, u32), &[u8]), Fail<Fault>>
    ensures { Gives (λ x. ((x.0.0, x.0.1), x.1.now)) result (two_words.read bytes.now) }
{
    let (first, rest) = read_word(bytes)?;
    match read_word(rest) {
        Ok((second, rest)) => Ok(((first, second), rest)),
        Err(fault) => Err(fault),
    }
}

#[tactic(auto, unfolding(vale_file_spec::specs::Instructions::three_words_spot, vale_file_spec::specs::Instructions::two_words_spot))]
fn read_three_words_spot(bytes: &[u8]) -> Result<((u32, u32, u32, Spot), &[u8]), Fail<Fault>>
    ensures { Gives (λ x. ((x.0.0, (x.0.1, (x.0.2, x.0.3))), x.1.now)) result (three_words_spot.read bytes.now) }
{
    let (first, rest) = read_word(bytes)?;
    match read_two_words_spot(rest) {
        Ok(((second, third, at), rest)) => Ok(((first, second, third, at), rest)),
        Err(fault) => Err(fault),
    }
}

#[tactic(auto, unfolding(vale_file_spec::specs::Instructions::word_choice_two_words, vale_file_spec::specs::Instructions::two_words))]
fn read_word_choice_two_words(bytes: &[u8]) -> Result<((u32, u8, u32, u32), &[u8]), Fail<Fault>>
    ensures { Gives (λ x. ((x.0.0, (x.0.1, (x.0.2, x.0.3))), x.1.now)) result (word_choice_two_words.read bytes.now) }
{
    let (first, rest) = read_word(bytes)?;
    let (second, rest) = read_choice(rest, 5)?;
    match read_two_words(rest) {
        Ok(((third, fourth), rest)) => Ok(((first, second, third, fourth), rest)),
        Err(fault) => Err(fault),
    }
}

#[tactic(auto, unfolding(vale_file_spec::specs::Instructions::four_words_spot, vale_file_spec::specs::Instructions::three_words_spot))]
fn read_four_words_spot(bytes: &[u8]) -> Result<((u32, u32, u32, u32, Spot), &[u8]), Fail<Fault>>
    ensures { Gives (λ x. ((x.0.0, (x.0.1, (x.0.2, (x.0.3, x.0.4)))), x.1.now)) result (four_words_spot.read bytes.now) }
{
    let (first, rest) = read_word(bytes)?;
    match read_three_words_spot(rest) {
        Ok(((second, third, fourth, at), rest)) => Ok(((first, second, third, fourth, at), rest)),
        Err(fault) => Err(fault),
    }
}

#[tactic(auto, unfolding(vale_file_spec::specs::Instructions::two_words_spot, vale_file_spec::specs::Instructions::word_spot))]
fn read_two_words_spot(bytes: &[u8]) -> Result<((u32, u32, Spot), &[u8]), Fail<Fault>>
    ensures { Gives (λ x. ((x.0.0, (x.0.1, x.0.2)), x.1.now)) result (two_words_spot.read bytes.now) }
{
    let (first, rest) = read_word(bytes)?;
    match read_word_spot(rest) {
        Ok(((second, at), rest)) => Ok(((first, second, at), rest)),
        Err(fault) => Err(fault),
    }
}

#[tactic(auto, unfolding(vale_file_spec::specs::Instructions::two_words_list_spot))]
fn read_two_words_list_spot(
    alloc: Global,
    bytes: &[u8],
) -> Result<((u32, u32, Sequence<u32>, Spot), &[u8]), Fail<Fault>>
    ensures { Gives (λ x. ((x.0.0, (x.0.1, (x.0.2, x.0.3))), x.1.now)) result (two_words_list_spot.read bytes.now) }
{
    let (first, rest) = read_word(bytes)?;
    let (second, rest) = read_word(rest)?;
    let (list, rest) = read_words(alloc, rest)?;
    match read_spot(rest) {
        Ok((at, rest)) => Ok(((first, second, list, at), rest)),
        Err(fault) => Err(fault),
    }
}

#[tactic(auto, unfolding(vale_file_spec::specs::Instructions::four_words_list_spot, vale_file_spec::specs::Instructions::three_words_list_spot))]
fn read_four_words_list_spot(
    alloc: Global,
    bytes: &[u8],
) -> Result<((u32, u32, u32, u32, Sequence<u32>, Spot), &[u8]), Fail<Fault>>
    ensures { Gives (λ x. ((x.0.0, (x.0.1, (x.0.2, (x.0.3, (x.0.4, x.0.5))))), x.1.now)) result (four_words_list_spot.read bytes.now) }
{
    let (first, rest) = read_word(bytes)?;
    match read_three_words_list_spot(alloc, rest) {
        Ok(((second, third, fourth, list, at), rest)) => Ok((
            (first, second, third, fourth, list, at),
            rest,
        )),
        Err(fault) => Err(fault),
    }
}

#[tactic(auto, unfolding(vale_file_spec::specs::Instructions::word_kind_list))]
fn read_word_kind_list(
    alloc: Global,
    bytes: &[u8],
) -> Result<((u32, Kind, Sequence<u32>), &[u8]), Fail<Fault>>
    ensures { Gives (λ x. ((x.0.0, (x.0.1, x.0.2)), x.1.now)) result (word_kind_list.read bytes.now) }
{
    let (first, rest) = read_word(bytes)?;
    let (kind, rest) = read_kind_number(rest)?;
    match read_words(alloc, rest) {
        Ok((list, rest)) => Ok(((first, kind, list), rest)),
        Err(fault) => Err(fault),
    }
}

#[tactic(auto, unfolding(vale_file_spec::specs::Instructions::three_words, vale_file_spec::specs::Instructions::two_words))]
fn read_three_words(bytes: &[u8]) -> Result<((u32, u32, u32), &[u8]), Fail<Fault>>
    ensures { Gives (λ x. ((x.0.0, (x.0.1, x.0.2)), x.1.now)) result (three_words.read bytes.now) }
{
    let (first, rest) = read_word(bytes)?;
    match read_two_words(rest) {
        Ok(((second, third), rest)) => Ok(((first, second, third), rest)),
        Err(fault) => Err(fault),
    }
}

#[tactic(auto, unfolding(vale_file_spec::specs::Instructions::four_words, vale_file_spec::specs::Instructions::three_words))]
fn read_four_words(bytes: &[u8]) -> Result<((u32, u32, u32, u32), &[u8]), Fail<Fault>>
    ensures { Gives (λ x. ((x.0.0, (x.0.1, (x.0.2, x.0.3))), x.1.now)) result (four_words.read bytes.now) }
{
    let (first, rest) = read_word(bytes)?;
    match read_three_words(rest) {
        Ok(((second, third, fourth), rest)) => Ok(((first, second, third, fourth), rest)),
        Err(fault) => Err(fault),
    }
}

#[tactic(auto, unfolding(vale_file_spec::specs::Instructions::list_word))]
fn read_list_word(alloc: Global, bytes: &[u8]) -> Result<((Sequence<u32>, u32), &[u8]), Fail<Fault>>
    ensures { Gives (λ x. ((x.0.0, x.0.1), x.1.now)) result (list_word.read bytes.now) }
{
    let (list, rest) = read_words(alloc, bytes)?;
    match read_word(rest) {
        Ok((last, rest)) => Ok(((list, last), rest)),
        Err(fault) => Err(fault),
    }
}

#[tactic(auto, unfolding(vale_file_spec::specs::Instructions::word_spot))]
fn read_word_spot(bytes: &[u8]) -> Result<((u32, Spot), &[u8]), Fail<Fault>>
    ensures { Gives (λ x. ((x.0.0, x.0.1), x.1.now)) result (word_spot.read bytes.now) }
{
    let (first, rest) = read_word(bytes)?;
    match read_spot(rest) {
        Ok((at, rest)) => Ok(((first, at), rest)),
        Err(fault) => Err(fault),
    }
}

#[tactic(auto, unfolding(vale_file_spec::specs::Instructions::three_words_list_spot, vale_file_spec::specs::Instructions::two_words_list_spot))]
fn read_three_words_list_spot(
    alloc: Global,
    bytes: &[u8],
) -> Result<((u32, u32, u32, Sequence<u32>, Spot), &[u8]), Fail<Fault>>
    ensures { Gives (λ x. ((x.0.0, (x.0.1, (x.0.2, (x.0.3, x.0.4)))), x.1.now)) result (three_words_list_spot.read bytes.now) }
{
    let (first, rest) = read_word(bytes)?;
    match read_two_words_list_spot(alloc, rest) {
        Ok(((second, third, list, at), rest)) => Ok(((first, second, third, list, at), rest)),
        Err(fault) => Err(fault),
    }
}

#[tactic(auto, unfolding(vale_file_spec::specs::Instructions::two_words_kind))]
fn read_two_words_kind(bytes: &[u8]) -> Result<((u32, u32, Kind), &[u8]), Fail<Fault>>
    ensures { Gives (λ x. ((x.0.0, (x.0.1, x.0.2)), x.1.now)) result (two_words_kind.read bytes.now) }
{
    let (first, rest) = read_word(bytes)?;
    let (second, rest) = read_word(rest)?;
    match read_kind_number(rest) {
        Ok((kind, rest)) => Ok(((first, second, kind), rest)),
        Err(fault) => Err(fault),
    }
}

// The operands of the forms from 0 to 10.
fn read_operands_0_to_10(tag: u8, bytes: &[u8]) -> Result<(Instr, &[u8]), Fail<Fault>>
    requires from { 0 ≤ tag }
    requires up_to { tag < 11 }
    ensures { Gives (λ x. (x.0, x.1.now)) result ((pick instr_forms tag).read bytes.now) }
{
    match tag {
        0 => match read_word_signed(bytes) {
            Ok(((to, number), rest)) => Ok((Instr::Int { to, number }, rest)),
            Err(fault) => Err(fault),
        },
        1 => match read_word_bit(bytes) {
            Ok(((to, choice), rest)) => Ok((Instr::Truth { to, choice }, rest)),
            Err(fault) => Err(fault),
        },
        2 => match read_two_words(bytes) {
            Ok(((to, text), rest)) => Ok((Instr::Text { to, text }, rest)),
            Err(fault) => Err(fault),
        },
        3 => match read_two_words(bytes) {
            Ok(((to, from), rest)) => Ok((Instr::Copy { to, from }, rest)),
            Err(fault) => Err(fault),
        },
        4 => match read_two_words(bytes) {
            Ok(((to, from), rest)) => Ok((Instr::Move { to, from }, rest)),
            Err(fault) => Err(fault),
        },
        5 => match read_three_words_spot(bytes) {
            Ok(((to, left, right, at), rest)) => Ok((
                Instr::Add {
                    to,
                    left,
                    right,
                    at,
                },
                rest,
            )),
            Err(fault) => Err(fault),
        },
        6 => match read_three_words_spot(bytes) {
            Ok(((to, left, right, at), rest)) => Ok((
                Instr::Sub {
                    to,
                    left,
                    right,
                    at,
                },
                rest,
            )),
            Err(fault) => Err(fault),
        },
        7 => match read_three_words_spot(bytes) {
            Ok(((to, left, right, at), rest)) => Ok((
                Instr::Mul {
                    to,
                    left,
                    right,
                    at,
                },
                rest,
            )),
            Err(fault) => Err(fault),
        },
        8 => match read_three_words_spot(bytes) {
            Ok(((to, left, right, at), rest)) => Ok((
                Instr::Div {
                    to,
                    left,
                    right,
                    at,
                },
                rest,
            )),
            Err(fault) => Err(fault),
        },
        9 => match read_three_words_spot(bytes) {
            Ok(((to, left, right, at), rest)) => Ok((
                Instr::Rem {
                    to,
                    left,
                    right,
                    at,
                },
                rest,
            )),
            Err(fault) => Err(fault),
        },
        _ => match read_word_choice_two_words(bytes) {
            Ok(((to, choice, left, right), rest)) => Ok((
                Instr::Cmp {
                    to,
                    choice,
                    left,
                    right,
                },
                rest,
            )),
            Err(fault) => Err(fault),
        },
    }
}

// The operands of the forms from 11 to 21.
fn read_operands_11_to_21(tag: u8, bytes: &[u8]) -> Result<(Instr, &[u8]), Fail<Fault>>
    requires from { 11 ≤ tag }
    requires up_to { tag < 22 }
    ensures { Gives (λ x. (x.0, x.1.now)) result ((pick instr_forms tag).read bytes.now) }
{
    match tag {
        11 => match read_two_words(bytes) {
            Ok(((to, from), rest)) => Ok((Instr::Not { to, from }, rest)),
            Err(fault) => Err(fault),
        },
        12 => match read_three_words_spot(bytes) {
            Ok(((to, left, right, at), rest)) => Ok((
                Instr::Join {
                    to,
                    left,
                    right,
                    at,
                },
                rest,
            )),
            Err(fault) => Err(fault),
        },
        13 => match read_two_words(bytes) {
            Ok(((to, from), rest)) => Ok((Instr::TextLen { to, from }, rest)),
            Err(fault) => Err(fault),
        },
        14 => match read_four_words_spot(bytes) {
            Ok(((to, from, first, end, at), rest)) => Ok((
                Instr::Slice {
                    to,
                    from,
                    first,
                    end,
                    at,
                },
                rest,
            )),
            Err(fault) => Err(fault),
        },
        15 => match read_three_words_spot(bytes) {
            Ok(((to, from, index, at), rest)) => Ok((
                Instr::Byte {
                    to,
                    from,
                    index,
                    at,
                },
                rest,
            )),
            Err(fault) => Err(fault),
        },
        16 => match read_two_words(bytes) {
            Ok(((to, from), rest)) => Ok((Instr::TextOf { to, from }, rest)),
            Err(fault) => Err(fault),
        },
        17 => match read_two_words(bytes) {
            Ok(((to, from), rest)) => Ok((Instr::IsNum { to, from }, rest)),
            Err(fault) => Err(fault),
        },
        18 => match read_two_words_spot(bytes) {
            Ok(((to, from, at), rest)) => Ok((Instr::Num { to, from, at }, rest)),
            Err(fault) => Err(fault),
        },
        19 => match read_word_bit(bytes) {
            Ok(((from, choice), rest)) => Ok((Instr::Print { from, choice }, rest)),
            Err(fault) => Err(fault),
        },
        20 => match read_word(bytes) {
            Ok((target, rest)) => Ok((Instr::Jump { target }, rest)),
            Err(fault) => Err(fault),
        },
        _ => match read_two_words(bytes) {
            Ok(((condition, target), rest)) => Ok((Instr::Unless { condition, target }, rest)),
            Err(fault) => Err(fault),
        },
    }
}

// The operands of the forms from 22 to 32.
fn read_operands_22_to_32(
    alloc: Global,
    tag: u8,
    bytes: &[u8],
) -> Result<(Instr, &[u8]), Fail<Fault>>
    requires from { 22 ≤ tag }
    requires up_to { tag < 33 }
    ensures { Gives (λ x. (x.0, x.1.now)) result ((pick instr_forms tag).read bytes.now) }
{
    match tag {
        22 => Ok((Instr::Tick, bytes)),
        23 => match read_two_words_list_spot(alloc, bytes) {
            Ok(((to, func, args, at), rest)) => Ok((Instr::Call { to, func, args, at }, rest)),
            Err(fault) => Err(fault),
        },
        24 => match read_four_words_list_spot(alloc, bytes) {
            Ok(((to, interface, method, object, args, at), rest)) => Ok((
                Instr::CallM {
                    to,
                    interface,
                    method,
                    object,
                    args,
                    at,
                },
                rest,
            )),
            Err(fault) => Err(fault),
        },
        25 => match read_four_words_list_spot(alloc, bytes) {
            Ok(((to, interface, method, object, args, at), rest)) => Ok((
                Instr::CallMLive {
                    to,
                    interface,
                    method,
                    object,
                    args,
                    at,
                },
                rest,
            )),
            Err(fault) => Err(fault),
        },
        26 => match read_word(bytes) {
            Ok((from, rest)) => Ok((Instr::Ret { from }, rest)),
            Err(fault) => Err(fault),
        },
        27 => Ok((Instr::RetVoid, bytes)),
        28 => match read_word_kind_list(alloc, bytes) {
            Ok(((to, kind, args), rest)) => Ok((Instr::Make { to, kind, args }, rest)),
            Err(fault) => Err(fault),
        },
        29 => match read_two_words(bytes) {
            Ok(((to, from), rest)) => Ok((Instr::Borrow { to, from }, rest)),
            Err(fault) => Err(fault),
        },
        30 => match read_two_words(bytes) {
            Ok(((to, from), rest)) => Ok((Instr::Frozen { to, from }, rest)),
            Err(fault) => Err(fault),
        },
        31 => match read_three_words(bytes) {
            Ok(((to, object, field), rest)) => Ok((Instr::LoadOwn { to, object, field }, rest)),
            Err(fault) => Err(fault),
        },
        _ => match read_three_words_spot(bytes) {
            Ok(((to, object, field, at), rest)) => Ok((
                Instr::Load {
                    to,
                    object,
                    field,
                    at,
                },
                rest,
            )),
            Err(fault) => Err(fault),
        },
    }
}

// The operands of the forms from 33 to 43.
fn read_operands_33_to_43(
    alloc: Global,
    tag: u8,
    bytes: &[u8],
) -> Result<(Instr, &[u8]), Fail<Fault>>
    requires from { 33 ≤ tag }
    requires up_to { tag < 44 }
    ensures { Gives (λ x. (x.0, x.1.now)) result ((pick instr_forms tag).read bytes.now) }
{
    match tag {
        33 => match read_three_words(bytes) {
            Ok(((to, object, field), rest)) => Ok((Instr::LoadLive { to, object, field }, rest)),
            Err(fault) => Err(fault),
        },
        34 => match read_three_words_spot(bytes) {
            Ok(((to, object, index, at), rest)) => Ok((
                Instr::ElemOwn {
                    to,
                    object,
                    index,
                    at,
                },
                rest,
            )),
            Err(fault) => Err(fault),
        },
        35 => match read_three_words_spot(bytes) {
            Ok(((to, object, index, at), rest)) => Ok((
                Instr::Elem {
                    to,
                    object,
                    index,
                    at,
                },
                rest,
            )),
            Err(fault) => Err(fault),
        },
        36 => match read_three_words_spot(bytes) {
            Ok(((to, object, index, at), rest)) => Ok((
                Instr::ElemLive {
                    to,
                    object,
                    index,
                    at,
                },
                rest,
            )),
            Err(fault) => Err(fault),
        },
        37 => match read_two_words_spot(bytes) {
            Ok(((to, object, at), rest)) => Ok((Instr::Len { to, object, at }, rest)),
            Err(fault) => Err(fault),
        },
        38 => match read_two_words(bytes) {
            Ok(((to, object), rest)) => Ok((Instr::LenLive { to, object }, rest)),
            Err(fault) => Err(fault),
        },
        39 => match read_four_words(bytes) {
            Ok(((to, object, field, value), rest)) => Ok((
                Instr::SwapOwn {
                    to,
                    object,
                    field,
                    value,
                },
                rest,
            )),
            Err(fault) => Err(fault),
        },
        40 => match read_four_words_spot(bytes) {
            Ok(((to, object, field, value, at), rest)) => Ok((
                Instr::Swap {
                    to,
                    object,
                    field,
                    value,
                    at,
                },
                rest,
            )),
            Err(fault) => Err(fault),
        },
        41 => match read_four_words_spot(bytes) {
            Ok(((to, object, index, value, at), rest)) => Ok((
                Instr::SwapElOwn {
                    to,
                    object,
                    index,
                    value,
                    at,
                },
                rest,
            )),
            Err(fault) => Err(fault),
        },
        42 => match read_four_words_spot(bytes) {
            Ok(((to, object, index, value, at), rest)) => Ok((
                Instr::SwapEl {
                    to,
                    object,
                    index,
                    value,
                    at,
                },
                rest,
            )),
            Err(fault) => Err(fault),
        },
        _ => match read_two_words_spot(bytes) {
            Ok(((object, value, at), rest)) => Ok((Instr::Push { object, value, at }, rest)),
            Err(fault) => Err(fault),
        },
    }
}

// The operands of the forms from 44 to 54.
fn read_operands_44_to_54(
    alloc: Global,
    tag: u8,
    bytes: &[u8],
) -> Result<(Instr, &[u8]), Fail<Fault>>
    requires from { 44 ≤ tag }
    requires up_to { tag < 55 }
    ensures { Gives (λ x. (x.0, x.1.now)) result ((pick instr_forms tag).read bytes.now) }
{
    match tag {
        44 => match read_two_words_spot(bytes) {
            Ok(((to, object, at), rest)) => Ok((Instr::Pop { to, object, at }, rest)),
            Err(fault) => Err(fault),
        },
        45 => match read_list_word(alloc, bytes) {
            Ok(((to, from), rest)) => Ok((Instr::Open { to, from }, rest)),
            Err(fault) => Err(fault),
        },
        46 => match read_word_spot(bytes) {
            Ok(((from, at), rest)) => Ok((Instr::Destroy { from, at }, rest)),
            Err(fault) => Err(fault),
        },
        47 => match read_two_words(bytes) {
            Ok(((to, from), rest)) => Ok((Instr::Merge { to, from }, rest)),
            Err(fault) => Err(fault),
        },
        48 => match read_spot(bytes) {
            Ok((at, rest)) => Ok((Instr::Freeze { at }, rest)),
            Err(fault) => Err(fault),
        },
        49 => match read_two_words(bytes) {
            Ok(((to, from), rest)) => Ok((Instr::ThawMerge { to, from }, rest)),
            Err(fault) => Err(fault),
        },
        50 => match read_two_words(bytes) {
            Ok(((to, from), rest)) => Ok((Instr::ThawKeep { to, from }, rest)),
            Err(fault) => Err(fault),
        },
        51 => Ok((Instr::ThawClear, bytes)),
        52 => match read_four_words_list_spot(alloc, bytes) {
            Ok(((to, first, end, func, args, at), rest)) => Ok((
                Instr::ParRange {
                    to,
                    first,
                    end,
                    func,
                    args,
                    at,
                },
                rest,
            )),
            Err(fault) => Err(fault),
        },
        53 => match read_three_words_list_spot(alloc, bytes) {
            Ok(((to, array, func, args, at), rest)) => Ok((
                Instr::ParEach {
                    to,
                    array,
                    func,
                    args,
                    at,
                },
                rest,
            )),
            Err(fault) => Err(fault),
        },
        _ => match read_two_words_kind(bytes) {
            Ok(((to, from, kind), rest)) => Ok((Instr::Upcast { to, from, kind }, rest)),
            Err(fault) => Err(fault),
        },
    }
}

/// An instruction.
#[tactic(auto, unfolding(vale_file_spec::specs::Instructions::instr))]
pub fn read_instr(alloc: Global, bytes: &[u8]) -> Result<(Instr, &[u8]), Fail<Fault>>
    ensures { Gives (λ x. (x.0, x.1.now)) result (instr.read bytes.now) }
{
    let (tag, rest) = read_choice(bytes, 54)?;
    match tag {
        0..=10 => read_operands_0_to_10(tag, rest),
        11..=21 => read_operands_11_to_21(tag, rest),
        22..=32 => read_operands_22_to_32(alloc, tag, rest),
        33..=43 => read_operands_33_to_43(alloc, tag, rest),
        _ => read_operands_44_to_54(alloc, tag, rest),
    }
}
