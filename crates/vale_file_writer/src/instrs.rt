//! Instructions, into a file.

ghost use Rattle.std.specs.Prelude.{◌≡◌, ◌++◌, OnOk};
ghost use Rattle.std.specs.List.{flat_map};
ghost use Rattle.vale_file_spec.specs.Types.{word, signed, spot};
ghost use Rattle.vale_file_spec.specs.Instructions.{words, word_signed, word_bit, two_words, three_words_spot, word_choice_two_words, four_words_spot, two_words_spot, two_words_list_spot, four_words_list_spot, word_kind_list, three_words, four_words, list_word, word_spot, three_words_list_spot, two_words_kind, instr_tag, instr_payload, instr};

use vale_base::{Kind, Memory, Spot};
use vale_code::{Instr, Sequence};
use vale_codec::{write_number, write_word};

fn write_signed(out: &mut Vec<u8>, number: i64) -> Result<(), Memory>
    ensures { OnOk result (out.new.items ≡ out.old.items ++ signed.write number) }
{
    if number >= 0 {
        write_number(out, 2 * (number as u64))
    } else {
        write_number(out, 2 * ((-(number + 1)) as u64) + 1)
    }
}

/// A spot.
pub fn write_spot(out: &mut Vec<u8>, at: Spot) -> Result<(), Memory>
    ensures { OnOk result (out.new.items ≡ out.old.items ++ spot.write at) }
{
    write_word(out, at.line)?;
    write_word(out, at.col)
}

// So many numbers.
fn write_each_word(out: &mut Vec<u8>, numbers: &[u32]) -> Result<(), Memory>
    ensures { OnOk result (out.new.items ≡ out.old.items ++ flat_map word.write numbers.now) }
{
    for number in numbers {
        write_word(out, *number)?;
    }
    Ok(())
}

/// A list of numbers.
#[tactic(auto, unfolding(vale_file_spec::specs::Instructions::words))]
pub fn write_words(out: &mut Vec<u8>, numbers: &Sequence<u32>) -> Result<(), Memory>
    ensures { OnOk result (out.new.items ≡ out.old.items ++ words.write numbers.now) }
{
    let numbers = numbers.as_slice();
    write_number(out, numbers.len() as u64)?;
    write_each_word(out, numbers)
}

#[tactic(auto, unfolding(vale_file_spec::specs::Instructions::word_signed))]
fn write_word_signed(out: &mut Vec<u8>, first: u32, second: i64) -> Result<(), Memory>
    ensures { OnOk result (out.new.items ≡ out.old.items ++ word_signed.write (first, second)) }
{
    write_word(out, first)?;
    write_signed(out, second)
}

#[tactic(auto, unfolding(vale_file_spec::specs::Instructions::word_bit))]
fn write_word_bit(out: &mut Vec<u8>, first: u32, second: u8) -> Result<(), Memory>
    ensures { OnOk result (out.new.items ≡ out.old.items ++ word_bit.write (first, second)) }
{
    write_word(out, first)?;
    write_number(out, u64::from(second))
}

#[tactic(auto, unfolding(vale_file_spec::specs::Instructions::two_words))]
fn write_two_words(out: &mut Vec<u8>, first: u32, second: u32) -> Result<(), Memory>
    ensures { OnOk result (out.new.items ≡ out.old.items ++ two_words.write (first, second)) }
{
    write_word(out, first)?;
    write_word(out, second)
}

#[tactic(auto, unfolding(vale_file_spec::specs::Instructions::three_words_spot, vale_file_spec::specs::Instructions::two_words_spot))]
fn write_three_words_spot(
    out: &mut Vec<u8>,
    first: u32,
    second: u32,
    third: u32,
    fourth: Spot,
) -> Result<(), Memory>
    ensures { OnOk result (out.new.items ≡ out.old.items ++ three_words_spot.write (first, (second, (third, fourth)))) }
{
    write_word(out, first)?;
    write_two_words_spot(out, second, third, fourth)
}

#[tactic(auto, unfolding(vale_file_spec::specs::Instructions::word_choice_two_words, vale_file_spec::specs::Instructions::two_words))]
fn write_word_choice_two_words(
    out: &mut Vec<u8>,
    first: u32,
    second: u8,
    third: u32,
    fourth: u32,
) -> Result<(), Memory>
    ensures { OnOk result (out.new.items ≡ out.old.items ++ word_choice_two_words.write (first, (second, (third, fourth)))) }
{
    write_word(out, first)?;
    write_number(out, u64::from(second))?;
    write_two_words(out, third, fourth)
}

#[tactic(auto, unfolding(vale_file_spec::specs::Instructions::four_words_spot, vale_file_spec::specs::Instructions::three_words_spot))]
fn write_four_words_spot(
    out: &mut Vec<u8>,
    first: u32,
    second: u32,
    third: u32,
    fourth: u32,
    fifth: Spot,
) -> Result<(), Memory>
    ensures { OnOk result (out.new.items ≡ out.old.items ++ four_words_spot.write (first, (second, (third, (fourth, fifth))))) }
{
    write_word(out, first)?;
    write_three_words_spot(out, second, third, fourth, fifth)
}

#[tactic(auto, unfolding(vale_file_spec::specs::Instructions::two_words_spot, vale_file_spec::specs::Instructions::word_spot))]
fn write_two_words_spot(
    out: &mut Vec<u8>,
    first: u32,
    second: u32,
    third: Spot,
) -> Result<(), Memory>
    ensures { OnOk result (out.new.items ≡ out.old.items ++ two_words_spot.write (first, (second, third))) }
{
    write_word(out, first)?;
    write_word_spot(out, second, third)
}

#[tactic(auto, unfolding(vale_file_spec::specs::Instructions::two_words_list_spot))]
fn write_two_words_list_spot(
    out: &mut Vec<u8>,
    first: u32,
    second: u32,
    third: &Sequence<u32>,
    fourth: Spot,
) -> Result<(), Memory>
    ensures { OnOk result (out.new.items ≡ out.old.items ++ two_words_list_spot.write (first, (second, (third.now, fourth)))) }
{
    write_word(out, first)?;
    write_word(out, second)?;
    write_words(out, third)?;
    write_spot(out, fourth)
}

#[tactic(auto, unfolding(vale_file_spec::specs::Instructions::four_words_list_spot, vale_file_spec::specs::Instructions::three_words_list_spot))]
fn write_four_words_list_spot(
    out: &mut Vec<u8>,
    first: u32,
    second: u32,
    third: u32,
    fourth: u32,
    fifth: &Sequence<u32>,
    sixth: Spot,
) -> Result<(), Memory>
    ensures { OnOk result (out.new.items ≡ out.old.items ++ four_words_list_spot.write (first, (second, (third, (fourth, (fifth.now, sixth)))))) }
{
    write_word(out, first)?;
    write_three_words_list_spot(out, second, third, fourth, fifth, sixth)
}

#[tactic(auto, unfolding(vale_file_spec::specs::Instructions::word_kind_list))]
fn write_word_kind_list(
    out: &mut Vec<u8>,
    first: u32,
    second: Kind,
    third: &Sequence<u32>,
) -> Result<(), Memory>
    ensures { OnOk result (out.new.items ≡ out.old.items ++ word_kind_list.write (first, (second, third.now))) }
{
    write_word(out, first)?;
    write_word(out, second.0)?;
    write_words(out, third)
}

#[tactic(auto, unfolding(vale_file_spec::specs::Instructions::three_words, vale_file_spec::specs::Instructions::two_words))]
fn write_three_words(out: &mut Vec<u8>, first: u32, second: u32, third: u32) -> Result<(), Memory>
    ensures { OnOk result (out.new.items ≡ out.old.items ++ three_words.write (first, (second, third))) }
{
    write_word(out, first)?;
    write_two_words(out, second, third)
}

#[tactic(auto, unfolding(vale_file_spec::specs::Instructions::four_words, vale_file_spec::specs::Instructions::three_words))]
fn write_four_words(
    out: &mut Vec<u8>,
    first: u32,
    second: u32,
    third: u32,
    fourth: u32,
) -> Result<(), Memory>
    ensures { OnOk result (out.new.items ≡ out.old.items ++ four_words.write (first, (second, (third, fourth)))) }
{
    write_word(out, first)?;
    write_three_words(out, second, third, fourth)
}

#[tactic(auto, unfolding(vale_file_spec::specs::Instructions::list_word))]
fn write_list_word(out: &mut Vec<u8>, first: &Sequence<u32>, second: u32) -> Result<(), Memory>
    ensures { OnOk result (out.new.items ≡ out.old.items ++ list_word.write (first.now, second)) }
{
    write_words(out, first)?;
    write_word(out, second)
}

#[tactic(auto, unfolding(vale_file_spec::specs::Instructions::word_spot))]
fn write_word_spot(out: &mut Vec<u8>, first: u32, second: Spot) -> Result<(), Memory>
    ensures { OnOk result (out.new.items ≡ out.old.items ++ word_spot.write (first, second)) }
{
    write_word(out, first)?;
    write_spot(out, second)
}

#[tactic(auto, unfolding(vale_file_spec::specs::Instructions::three_words_list_spot, vale_file_spec::specs::Instructions::two_words_list_spot))]
fn write_three_words_list_spot(
    out: &mut Vec<u8>,
    first: u32,
    second: u32,
    third: u32,
    fourth: &Sequence<u32>,
    fifth: Spot,
) -> Result<(), Memory>
    ensures { OnOk result (out.new.items ≡ out.old.items ++ three_words_list_spot.write (first, (second, (third, (fourth.now, fifth))))) }
{
    write_word(out, first)?;
    write_two_words_list_spot(out, second, third, fourth, fifth)
}

#[tactic(auto, unfolding(vale_file_spec::specs::Instructions::two_words_kind))]
fn write_two_words_kind(
    out: &mut Vec<u8>,
    first: u32,
    second: u32,
    third: Kind,
) -> Result<(), Memory>
    ensures { OnOk result (out.new.items ≡ out.old.items ++ two_words_kind.write (first, (second, third))) }
{
    write_word(out, first)?;
    write_word(out, second)?;
    write_word(out, third.0)
}

fn tag_of(instr: &Instr) -> u8
    ensures { result ≡ instr_tag instr.now }
{
    match instr {
        Instr::Int { .. } => 0,
        Instr::Truth { .. } => 1,
        Instr::Text { .. } => 2,
        Instr::Copy { .. } => 3,
        Instr::Move { .. } => 4,
        Instr::Add { .. } => 5,
        Instr::Sub { .. } => 6,
        Instr::Mul { .. } => 7,
        Instr::Div { .. } => 8,
        Instr::Rem { .. } => 9,
        Instr::Cmp { .. } => 10,
        Instr::Not { .. } => 11,
        Instr::Join { .. } => 12,
        Instr::TextLen { .. } => 13,
        Instr::Slice { .. } => 14,
        Instr::Byte { .. } => 15,
        Instr::TextOf { .. } => 16,
        Instr::IsNum { .. } => 17,
        Instr::Num { .. } => 18,
        Instr::Print { .. } => 19,
        Instr::Jump { .. } => 20,
        Instr::Unless { .. } => 21,
        Instr::Tick => 22,
        Instr::Call { .. } => 23,
        Instr::CallM { .. } => 24,
        Instr::CallMLive { .. } => 25,
        Instr::Ret { .. } => 26,
        Instr::RetVoid => 27,
        Instr::Make { .. } => 28,
        Instr::Borrow { .. } => 29,
        Instr::Frozen { .. } => 30,
        Instr::LoadOwn { .. } => 31,
        Instr::Load { .. } => 32,
        Instr::LoadLive { .. } => 33,
        Instr::ElemOwn { .. } => 34,
        Instr::Elem { .. } => 35,
        Instr::ElemLive { .. } => 36,
        Instr::Len { .. } => 37,
        Instr::LenLive { .. } => 38,
        Instr::SwapOwn { .. } => 39,
        Instr::Swap { .. } => 40,
        Instr::SwapElOwn { .. } => 41,
        Instr::SwapEl { .. } => 42,
        Instr::Push { .. } => 43,
        Instr::Pop { .. } => 44,
        Instr::Open { .. } => 45,
        Instr::Destroy { .. } => 46,
        Instr::Merge { .. } => 47,
        Instr::Freeze { .. } => 48,
        Instr::ThawMerge { .. } => 49,
        Instr::ThawKeep { .. } => 50,
        Instr::ThawClear => 51,
        Instr::ParRange { .. } => 52,
        Instr::ParEach { .. } => 53,
        Instr::Upcast { .. } => 54,
    }
}

fn write_payload(out: &mut Vec<u8>, instr: &Instr) -> Result<(), Memory>
    ensures { OnOk result (out.new.items ≡ out.old.items ++ instr_payload instr.now) }
{
    match instr {
        Instr::Int { to, number } => write_word_signed(out, *to, *number),
        Instr::Truth { to, choice } => write_word_bit(out, *to, *choice),
        Instr::Text { to, text } => write_two_words(out, *to, *text),
        Instr::Copy { to, from } => write_two_words(out, *to, *from),
        Instr::Move { to, from } => write_two_words(out, *to, *from),
        Instr::Add {
            to,
            left,
            right,
            at,
        } => write_three_words_spot(out, *to, *left, *right, *at),
        Instr::Sub {
            to,
            left,
            right,
            at,
        } => write_three_words_spot(out, *to, *left, *right, *at),
        Instr::Mul {
            to,
            left,
            right,
            at,
        } => write_three_words_spot(out, *to, *left, *right, *at),
        Instr::Div {
            to,
            left,
            right,
            at,
        } => write_three_words_spot(out, *to, *left, *right, *at),
        Instr::Rem {
            to,
            left,
            right,
            at,
        } => write_three_words_spot(out, *to, *left, *right, *at),
        Instr::Cmp {
            to,
            choice,
            left,
            right,
        } => write_word_choice_two_words(out, *to, *choice, *left, *right),
        Instr::Not { to, from } => write_two_words(out, *to, *from),
        Instr::Join {
            to,
            left,
            right,
            at,
        } => write_three_words_spot(out, *to, *left, *right, *at),
        Instr::TextLen { to, from } => write_two_words(out, *to, *from),
        Instr::Slice {
            to,
            from,
            first,
            end,
            at,
        } => write_four_words_spot(out, *to, *from, *first, *end, *at),
        Instr::Byte {
            to,
            from,
            index,
            at,
        } => write_three_words_spot(out, *to, *from, *index, *at),
        Instr::TextOf { to, from } => write_two_words(out, *to, *from),
        Instr::IsNum { to, from } => write_two_words(out, *to, *from),
        Instr::Num { to, from, at } => write_two_words_spot(out, *to, *from, *at),
        Instr::Print { from, choice } => write_word_bit(out, *from, *choice),
        Instr::Jump { target } => write_word(out, *target),
        Instr::Unless { condition, target } => write_two_words(out, *condition, *target),
        Instr::Tick => Ok(()),
        Instr::Call { to, func, args, at } => write_two_words_list_spot(out, *to, *func, args, *at),
        Instr::CallM {
            to,
            interface,
            method,
            object,
            args,
            at,
        } => write_four_words_list_spot(out, *to, *interface, *method, *object, args, *at),
        Instr::CallMLive {
            to,
            interface,
            method,
            object,
            args,
            at,
        } => write_four_words_list_spot(out, *to, *interface, *method, *object, args, *at),
        Instr::Ret { from } => write_word(out, *from),
        Instr::RetVoid => Ok(()),
        Instr::Make { to, kind, args } => write_word_kind_list(out, *to, *kind, args),
        Instr::Borrow { to, from } => write_two_words(out, *to, *from),
        Instr::Frozen { to, from } => write_two_words(out, *to, *from),
        Instr::LoadOwn { to, object, field } => write_three_words(out, *to, *object, *field),
        Instr::Load {
            to,
            object,
            field,
            at,
        } => write_three_words_spot(out, *to, *object, *field, *at),
        Instr::LoadLive { to, object, field } => write_three_words(out, *to, *object, *field),
        Instr::ElemOwn {
            to,
            object,
            index,
            at,
        } => write_three_words_spot(out, *to, *object, *index, *at),
        Instr::Elem {
            to,
            object,
            index,
            at,
        } => write_three_words_spot(out, *to, *object, *index, *at),
        Instr::ElemLive {
            to,
            object,
            index,
            at,
        } => write_three_words_spot(out, *to, *object, *index, *at),
        Instr::Len { to, object, at } => write_two_words_spot(out, *to, *object, *at),
        Instr::LenLive { to, object } => write_two_words(out, *to, *object),
        Instr::SwapOwn {
            to,
            object,
            field,
            value,
        } => write_four_words(out, *to, *object, *field, *value),
        Instr::Swap {
            to,
            object,
            field,
            value,
            at,
        } => write_four_words_spot(out, *to, *object, *field, *value, *at),
        Instr::SwapElOwn {
            to,
            object,
            index,
            value,
            at,
        } => write_four_words_spot(out, *to, *object, *index, *value, *at),
        Instr::SwapEl {
            to,
            object,
            index,
            value,
            at,
        } => write_four_words_spot(out, *to, *object, *index, *value, *at),
        Instr::Push { object, value, at } => write_two_words_spot(out, *object, *value, *at),
        Instr::Pop { to, object, at } => write_two_words_spot(out, *to, *object, *at),
        Instr::Open { to, from } => write_list_word(out, to, *from),
        Instr::Destroy { from, at } => write_word_spot(out, *from, *at),
        Instr::Merge { to, from } => write_two_words(out, *to, *from),
        Instr::Freeze { at } => write_spot(out, *at),
        Instr::ThawMerge { to, from } => write_two_words(out, *to, *from),
        Instr::ThawKeep { to, from } => write_two_words(out, *to, *from),
        Instr::ThawClear => Ok(()),
        Instr::ParRange {
            to,
            first,
            end,
            func,
            args,
            at,
        } => write_four_words_list_spot(out, *to, *first, *end, *func, args, *at),
        Instr::ParEach {
            to,
            array,
            func,
            args,
            at,
        } => write_three_words_list_spot(out, *to, *array, *func, args, *at),
        Instr::Upcast { to, from, kind } => write_two_words_kind(out, *to, *from, *kind),
    }
}

/// An instruction.
#[tactic(auto, unfolding(vale_file_spec::specs::Instructions::instr))]
pub fn write_instr(out: &mut Vec<u8>, one: &Instr) -> Result<(), Memory>
    ensures { OnOk result (out.new.items ≡ out.old.items ++ instr.write one.now) }
{
    write_number(out, u64::from(tag_of(one)))?;
    write_payload(out, one)
}
