//! The operands of instructions.

ghost use Rattle.std.specs.Prelude.{◌≡◌, ◌≤◌, true, length};
ghost use Rattle.std.specs.List.{AllByRecursion};
ghost use Rattle.vale_code.specs.Sizes.{is_few};
ghost use Rattle.vale_file_fits.specs.Fits.{InstrIsFit};
ghost use Rattle.vale_file_spec.specs.Instructions.{word_signed, word_bit, two_words, three_words, four_words, word_choice_two_words, two_words_kind, word_spot, two_words_spot, three_words_spot, four_words_spot, list_word, word_kind_list, two_words_list_spot, three_words_list_spot, four_words_list_spot};

use crate::numbers::{kind_number_fits, signed_fits, spot_fits, word_fits, words_fit};
use vale_base::{Kind, Spot};
use vale_code::{Instr, Sequence};

#[tactic(auto, unfolding(vale_file_spec::specs::Instructions::word_signed))]
fn word_signed_fit(first: u32, second: i64)
    ensures { word_signed.Fits (first, second) }
{
    signed_fits(second);
}

#[tactic(auto, unfolding(vale_file_spec::specs::Instructions::word_bit))]
fn word_bit_fit(first: u32, second: u8)
    ensures { second ≤ 1 → word_bit.Fits (first, second) }
{}

#[tactic(auto, unfolding(vale_file_spec::specs::Instructions::two_words))]
fn two_words_fit(first: u32, second: u32)
    ensures { two_words.Fits (first, second) }
{}

#[tactic(auto, unfolding(vale_file_spec::specs::Instructions::three_words))]
fn three_words_fit(first: u32, second: u32, third: u32)
    ensures { three_words.Fits (first, (second, third)) }
{}

#[tactic(auto, unfolding(vale_file_spec::specs::Instructions::four_words))]
fn four_words_fit(first: u32, second: u32, third: u32, fourth: u32)
    ensures { four_words.Fits (first, (second, (third, fourth))) }
{}

#[tactic(auto, unfolding(vale_file_spec::specs::Instructions::word_choice_two_words))]
fn word_choice_two_words_fit(first: u32, second: u8, third: u32, fourth: u32)
    ensures { second ≤ 5 → word_choice_two_words.Fits (first, (second, (third, fourth))) }
{}

#[tactic(auto, unfolding(vale_file_spec::specs::Instructions::two_words_kind))]
fn two_words_kind_fit(first: u32, second: u32, kind: Kind)
    ensures { two_words_kind.Fits (first, (second, kind)) }
{
    kind_number_fits(kind);
}

#[tactic(auto, unfolding(vale_file_spec::specs::Instructions::word_spot))]
fn word_spot_fit(first: u32, at: Spot)
    ensures { word_spot.Fits (first, at) }
{
    spot_fits(at);
}

#[tactic(auto, unfolding(vale_file_spec::specs::Instructions::two_words_spot))]
fn two_words_spot_fit(first: u32, second: u32, at: Spot)
    ensures { two_words_spot.Fits (first, (second, at)) }
{
    spot_fits(at);
}

#[tactic(auto, unfolding(vale_file_spec::specs::Instructions::three_words_spot))]
fn three_words_spot_fit(first: u32, second: u32, third: u32, at: Spot)
    ensures { three_words_spot.Fits (first, (second, (third, at))) }
{
    spot_fits(at);
}

#[tactic(auto, unfolding(vale_file_spec::specs::Instructions::four_words_spot))]
fn four_words_spot_fit(first: u32, second: u32, third: u32, fourth: u32, at: Spot)
    ensures { four_words_spot.Fits (first, (second, (third, (fourth, at)))) }
{
    spot_fits(at);
}

#[tactic(auto, unfolding(vale_file_spec::specs::Instructions::list_word))]
fn list_word_fit(list: &Sequence<u32>, last: u32)
    ensures { is_few (length list.now) ≡ true → list_word.Fits (list.now, last) }
{
    words_fit(list);
}

#[tactic(auto, unfolding(vale_file_spec::specs::Instructions::word_kind_list))]
fn word_kind_list_fit(first: u32, kind: Kind, list: &Sequence<u32>)
    ensures { is_few (length list.now) ≡ true → word_kind_list.Fits (first, (kind, list.now)) }
{
    kind_number_fits(kind);
    words_fit(list);
}

#[tactic(auto, unfolding(vale_file_spec::specs::Instructions::two_words_list_spot))]
fn two_words_list_spot_fit(first: u32, second: u32, list: &Sequence<u32>, at: Spot)
    ensures { is_few (length list.now) ≡ true → two_words_list_spot.Fits (first, (second, (list.now, at))) }
{
    words_fit(list);
    spot_fits(at);
}

#[tactic(auto, unfolding(vale_file_spec::specs::Instructions::three_words_list_spot))]
fn three_words_list_spot_fit(first: u32, second: u32, third: u32, list: &Sequence<u32>, at: Spot)
    ensures { is_few (length list.now) ≡ true → three_words_list_spot.Fits (first, (second, (third, (list.now, at)))) }
{
    words_fit(list);
    spot_fits(at);
}

#[tactic(auto, unfolding(vale_file_spec::specs::Instructions::four_words_list_spot))]
fn four_words_list_spot_fit(
    first: u32,
    second: u32,
    third: u32,
    fourth: u32,
    list: &Sequence<u32>,
    at: Spot,
)
    ensures { is_few (length list.now) ≡ true → four_words_list_spot.Fits (first, (second, (third, (fourth, (list.now, at))))) }
{
    words_fit(list);
    spot_fits(at);
}

fn operands_fit(instr: &Instr)
    ensures { InstrIsFit instr.now }
{
    match instr {
        Instr::Int { to, number } => word_signed_fit(*to, *number),
        Instr::Truth { to, choice } => word_bit_fit(*to, *choice),
        Instr::Text { to, text } => two_words_fit(*to, *text),
        Instr::Copy { to, from } => two_words_fit(*to, *from),
        Instr::Move { to, from } => two_words_fit(*to, *from),
        Instr::Add {
            to,
            left,
            right,
            at,
        } => three_words_spot_fit(*to, *left, *right, *at),
        Instr::Sub {
            to,
            left,
            right,
            at,
        } => three_words_spot_fit(*to, *left, *right, *at),
        Instr::Mul {
            to,
            left,
            right,
            at,
        } => three_words_spot_fit(*to, *left, *right, *at),
        Instr::Div {
            to,
            left,
            right,
            at,
        } => three_words_spot_fit(*to, *left, *right, *at),
        Instr::Rem {
            to,
            left,
            right,
            at,
        } => three_words_spot_fit(*to, *left, *right, *at),
        Instr::Cmp {
            to,
            choice,
            left,
            right,
        } => word_choice_two_words_fit(*to, *choice, *left, *right),
        Instr::Not { to, from } => two_words_fit(*to, *from),
        Instr::Join {
            to,
            left,
            right,
            at,
        } => three_words_spot_fit(*to, *left, *right, *at),
        Instr::TextLen { to, from } => two_words_fit(*to, *from),
        Instr::Slice {
            to,
            from,
            first,
            end,
            at,
        } => four_words_spot_fit(*to, *from, *first, *end, *at),
        Instr::Byte {
            to,
            from,
            index,
            at,
        } => three_words_spot_fit(*to, *from, *index, *at),
        Instr::TextOf { to, from } => two_words_fit(*to, *from),
        Instr::IsNum { to, from } => two_words_fit(*to, *from),
        Instr::Num { to, from, at } => two_words_spot_fit(*to, *from, *at),
        Instr::Print { from, choice } => word_bit_fit(*from, *choice),
        Instr::Jump { target } => word_fits(*target),
        Instr::Unless { condition, target } => two_words_fit(*condition, *target),
        Instr::Tick => {},
        Instr::Call { to, func, args, at } => two_words_list_spot_fit(*to, *func, args, *at),
        Instr::CallM {
            to,
            interface,
            method,
            object,
            args,
            at,
        } => four_words_list_spot_fit(*to, *interface, *method, *object, args, *at),
        Instr::CallMLive {
            to,
            interface,
            method,
            object,
            args,
            at,
        } => four_words_list_spot_fit(*to, *interface, *method, *object, args, *at),
        Instr::Ret { from } => word_fits(*from),
        Instr::RetVoid => {},
        Instr::Make { to, kind, args } => word_kind_list_fit(*to, *kind, args),
        Instr::Borrow { to, from } => two_words_fit(*to, *from),
        Instr::Frozen { to, from } => two_words_fit(*to, *from),
        Instr::LoadOwn { to, object, field } => three_words_fit(*to, *object, *field),
        Instr::Load {
            to,
            object,
            field,
            at,
        } => three_words_spot_fit(*to, *object, *field, *at),
        Instr::LoadLive { to, object, field } => three_words_fit(*to, *object, *field),
        Instr::ElemOwn {
            to,
            object,
            index,
            at,
        } => three_words_spot_fit(*to, *object, *index, *at),
        Instr::Elem {
            to,
            object,
            index,
            at,
        } => three_words_spot_fit(*to, *object, *index, *at),
        Instr::ElemLive {
            to,
            object,
            index,
            at,
        } => three_words_spot_fit(*to, *object, *index, *at),
        Instr::Len { to, object, at } => two_words_spot_fit(*to, *object, *at),
        Instr::LenLive { to, object } => two_words_fit(*to, *object),
        Instr::SwapOwn {
            to,
            object,
            field,
            value,
        } => four_words_fit(*to, *object, *field, *value),
        Instr::Swap {
            to,
            object,
            field,
            value,
            at,
        } => four_words_spot_fit(*to, *object, *field, *value, *at),
        Instr::SwapElOwn {
            to,
            object,
            index,
            value,
            at,
        } => four_words_spot_fit(*to, *object, *index, *value, *at),
        Instr::SwapEl {
            to,
            object,
            index,
            value,
            at,
        } => four_words_spot_fit(*to, *object, *index, *value, *at),
        Instr::Push { object, value, at } => two_words_spot_fit(*object, *value, *at),
        Instr::Pop { to, object, at } => two_words_spot_fit(*to, *object, *at),
        Instr::Open { to, from } => list_word_fit(to, *from),
        Instr::Destroy { from, at } => word_spot_fit(*from, *at),
        Instr::Merge { to, from } => two_words_fit(*to, *from),
        Instr::Freeze { at } => spot_fits(*at),
        Instr::ThawMerge { to, from } => two_words_fit(*to, *from),
        Instr::ThawKeep { to, from } => two_words_fit(*to, *from),
        Instr::ThawClear => {},
        Instr::ParRange {
            to,
            first,
            end,
            func,
            args,
            at,
        } => four_words_list_spot_fit(*to, *first, *end, *func, args, *at),
        Instr::ParEach {
            to,
            array,
            func,
            args,
            at,
        } => three_words_list_spot_fit(*to, *array, *func, args, *at),
        Instr::Upcast { to, from, kind } => two_words_kind_fit(*to, *from, *kind),
    }
}

#[tactic(auto, using(crate::proofs::ListFits::all_more))]
pub fn each_instr_fits(instrs: &[Instr])
    ensures { AllByRecursion InstrIsFit instrs.now }
{
    for instr in instrs {
        operands_fit(instr);
    }
}
