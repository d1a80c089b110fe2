//! The lines of instructions.

ghost use Rattle.std.specs.Prelude.{◌≡◌, ◌++◌, OnOk};
ghost use Rattle.std.specs.Fmt.{decimal};
ghost use Rattle.vale_listing.specs.Listing.{word, signed, words, spot, two_words, three_words, four_words, operands, name, instr_line};

use itoa::Buffer;
use vale_base::{Kind, Memory, Spot};
use vale_code::{Instr, Sequence};

/// A number in decimal.
pub fn push_decimal(text: &mut Vec<u8>, number: u64) -> Result<(), Memory>
    ensures { OnOk result (text.new.items ≡ text.old.items ++ decimal number) }
{
    let mut buffer = Buffer::new();
    text.extend_from_slice(buffer.format(number).as_bytes())?;
    Ok(())
}

fn push_word(text: &mut Vec<u8>, number: u32) -> Result<(), Memory>
    ensures { OnOk result (text.new.items ≡ text.old.items ++ word number) }
{
    text.push(b' ')?;
    push_decimal(text, u64::from(number))
}

fn push_signed(text: &mut Vec<u8>, number: i64) -> Result<(), Memory>
    ensures { OnOk result (text.new.items ≡ text.old.items ++ signed number) }
{
    let mut buffer = Buffer::new();
    text.push(b' ')?;
    text.extend_from_slice(buffer.format(number).as_bytes())?;
    Ok(())
}

fn push_each_word(text: &mut Vec<u8>, numbers: &[u32]) -> Result<(), Memory>
    ensures { OnOk result (text.new.items ≡ text.old.items ++ words numbers.now) }
{
    for number in numbers {
        push_word(text, *number)?;
    }
    Ok(())
}

fn push_words(text: &mut Vec<u8>, list: &Sequence<u32>) -> Result<(), Memory>
    ensures { OnOk result (text.new.items ≡ text.old.items ++ words list.now) }
{
    push_each_word(text, list.as_slice())
}

fn push_spot(text: &mut Vec<u8>, at: Spot) -> Result<(), Memory>
    ensures { OnOk result (text.new.items ≡ text.old.items ++ spot at) }
{
    push_word(text, at.line)?;
    push_word(text, at.col)
}

fn push_two_words(text: &mut Vec<u8>, first: u32, second: u32) -> Result<(), Memory>
    ensures { OnOk result (text.new.items ≡ text.old.items ++ (two_words first second)) }
{
    push_word(text, first)?;
    push_word(text, second)
}

fn push_three_words(text: &mut Vec<u8>, first: u32, second: u32, third: u32) -> Result<(), Memory>
    ensures { OnOk result (text.new.items ≡ text.old.items ++ (three_words first second third)) }
{
    push_word(text, first)?;
    push_two_words(text, second, third)
}

fn push_four_words(
    text: &mut Vec<u8>,
    first: u32,
    second: u32,
    third: u32,
    fourth: u32,
) -> Result<(), Memory>
    ensures { OnOk result (text.new.items ≡ text.old.items ++ (four_words first second third fourth)) }
{
    push_word(text, first)?;
    push_three_words(text, second, third, fourth)
}

fn push_word_signed(text: &mut Vec<u8>, first: u32, second: i64) -> Result<(), Memory>
    ensures { OnOk result (text.new.items ≡ text.old.items ++ (word first ++ signed second)) }
{
    push_word(text, first)?;
    push_signed(text, second)
}

fn push_word_bit(text: &mut Vec<u8>, first: u32, second: u8) -> Result<(), Memory>
    ensures { OnOk result (text.new.items ≡ text.old.items ++ (two_words first second)) }
{
    push_two_words(text, first, u32::from(second))
}

fn push_word_choice_two_words(
    text: &mut Vec<u8>,
    first: u32,
    second: u8,
    third: u32,
    fourth: u32,
) -> Result<(), Memory>
    ensures { OnOk result (text.new.items ≡ text.old.items ++ (four_words first second third fourth)) }
{
    push_four_words(text, first, u32::from(second), third, fourth)
}

fn push_word_spot(text: &mut Vec<u8>, first: u32, at: Spot) -> Result<(), Memory>
    ensures { OnOk result (text.new.items ≡ text.old.items ++ (word first ++ spot at)) }
{
    push_word(text, first)?;
    push_spot(text, at)
}

fn push_two_words_spot(text: &mut Vec<u8>, first: u32, second: u32, at: Spot) -> Result<(), Memory>
    ensures { OnOk result (text.new.items ≡ text.old.items ++ (two_words first second ++ spot at)) }
{
    push_two_words(text, first, second)?;
    push_spot(text, at)
}

fn push_three_words_spot(
    text: &mut Vec<u8>,
    first: u32,
    second: u32,
    third: u32,
    at: Spot,
) -> Result<(), Memory>
    ensures { OnOk result (text.new.items ≡ text.old.items ++ (three_words first second third ++ spot at)) }
{
    push_three_words(text, first, second, third)?;
    push_spot(text, at)
}

fn push_four_words_spot(
    text: &mut Vec<u8>,
    first: u32,
    second: u32,
    third: u32,
    fourth: u32,
    at: Spot,
) -> Result<(), Memory>
    ensures { OnOk result (text.new.items ≡ text.old.items ++ (four_words first second third fourth ++ spot at)) }
{
    push_four_words(text, first, second, third, fourth)?;
    push_spot(text, at)
}

fn push_list_spot(text: &mut Vec<u8>, list: &Sequence<u32>, at: Spot) -> Result<(), Memory>
    ensures { OnOk result (text.new.items ≡ text.old.items ++ (words list.now ++ spot at)) }
{
    push_words(text, list)?;
    push_spot(text, at)
}

fn push_two_words_list_spot(
    text: &mut Vec<u8>,
    first: u32,
    second: u32,
    list: &Sequence<u32>,
    at: Spot,
) -> Result<(), Memory>
    ensures { OnOk result (text.new.items ≡ text.old.items ++ (two_words first second ++ (words list.now ++ spot at))) }
{
    push_two_words(text, first, second)?;
    push_list_spot(text, list, at)
}

fn push_three_words_list_spot(
    text: &mut Vec<u8>,
    first: u32,
    second: u32,
    third: u32,
    list: &Sequence<u32>,
    at: Spot,
) -> Result<(), Memory>
    ensures { OnOk result (text.new.items ≡ text.old.items ++ (three_words first second third ++ (words list.now ++ spot at))) }
{
    push_three_words(text, first, second, third)?;
    push_list_spot(text, list, at)
}

fn push_four_words_list_spot(
    text: &mut Vec<u8>,
    first: u32,
    second: u32,
    third: u32,
    fourth: u32,
    list: &Sequence<u32>,
    at: Spot,
) -> Result<(), Memory>
    ensures { OnOk result (text.new.items ≡ text.old.items ++ (four_words first second third fourth ++ (words list.now ++ spot at))) }
{
    push_four_words(text, first, second, third, fourth)?;
    push_list_spot(text, list, at)
}

fn push_word_kind_list(
    text: &mut Vec<u8>,
    first: u32,
    kind: Kind,
    list: &Sequence<u32>,
) -> Result<(), Memory>
    ensures { OnOk result (text.new.items ≡ text.old.items ++ (two_words first kind.0 ++ words list.now)) }
{
    push_two_words(text, first, kind.0)?;
    push_words(text, list)
}

fn push_list_word(text: &mut Vec<u8>, list: &Sequence<u32>, last: u32) -> Result<(), Memory>
    ensures { OnOk result (text.new.items ≡ text.old.items ++ (words list.now ++ word last)) }
{
    push_words(text, list)?;
    push_word(text, last)
}

fn push_two_words_kind(
    text: &mut Vec<u8>,
    first: u32,
    second: u32,
    kind: Kind,
) -> Result<(), Memory>
    ensures { OnOk result (text.new.items ≡ text.old.items ++ (three_words first second kind.0)) }
{
    push_three_words(text, first, second, kind.0)
}

fn name(instr: &Instr) -> &'static str
    ensures { result.now ≡ name instr.now }
{
    match instr {
        Instr::Int { .. } => "int",
        Instr::Truth { .. } => "truth",
        Instr::Text { .. } => "text",
        Instr::Copy { .. } => "copy",
        Instr::Move { .. } => "move",
        Instr::Add { .. } => "add",
        Instr::Sub { .. } => "sub",
        Instr::Mul { .. } => "mul",
        Instr::Div { .. } => "div",
        Instr::Rem { .. } => "rem",
        Instr::Cmp { .. } => "cmp",
        Instr::Not { .. } => "not",
        Instr::Join { .. } => "join",
        Instr::TextLen { .. } => "textlen",
        Instr::Slice { .. } => "slice",
        Instr::Byte { .. } => "byte",
        Instr::TextOf { .. } => "textof",
        Instr::IsNum { .. } => "isnum",
        Instr::Num { .. } => "num",
        Instr::Print { .. } => "print",
        Instr::Jump { .. } => "jump",
        Instr::Unless { .. } => "unless",
        Instr::Tick => "tick",
        Instr::Call { .. } => "call",
        Instr::CallM { .. } => "callm",
        Instr::CallMLive { .. } => "callm_live",
        Instr::Ret { .. } => "ret",
        Instr::RetVoid => "retvoid",
        Instr::Make { .. } => "make",
        Instr::Borrow { .. } => "borrow",
        Instr::Frozen { .. } => "frozen",
        Instr::LoadOwn { .. } => "load_own",
        Instr::Load { .. } => "load",
        Instr::LoadLive { .. } => "load_live",
        Instr::ElemOwn { .. } => "elem_own",
        Instr::Elem { .. } => "elem",
        Instr::ElemLive { .. } => "elem_live",
        Instr::Len { .. } => "len",
        Instr::LenLive { .. } => "len_live",
        Instr::SwapOwn { .. } => "swap_own",
        Instr::Swap { .. } => "swap",
        Instr::SwapElOwn { .. } => "swapel_own",
        Instr::SwapEl { .. } => "swapel",
        Instr::Push { .. } => "push",
        Instr::Pop { .. } => "pop",
        Instr::Open { .. } => "open",
        Instr::Destroy { .. } => "destroy",
        Instr::Merge { .. } => "merge",
        Instr::Freeze { .. } => "freeze",
        Instr::ThawMerge { .. } => "thaw_merge",
        Instr::ThawKeep { .. } => "thaw_keep",
        Instr::ThawClear => "thaw_clear",
        Instr::ParRange { .. } => "par_range",
        Instr::ParEach { .. } => "par_each",
        Instr::Upcast { .. } => "upcast",
    }
}

fn push_operands(text: &mut Vec<u8>, instr: &Instr) -> Result<(), Memory>
    ensures { OnOk result (text.new.items ≡ text.old.items ++ operands instr.now) }
{
    match instr {
        Instr::Int { to, number } => push_word_signed(text, *to, *number),
        Instr::Truth { to, choice } => push_word_bit(text, *to, *choice),
        Instr::Text { to, text: number } => push_two_words(text, *to, *number),
        Instr::Copy { to, from } => push_two_words(text, *to, *from),
        Instr::Move { to, from } => push_two_words(text, *to, *from),
        Instr::Add {
            to,
            left,
            right,
            at,
        } => push_three_words_spot(text, *to, *left, *right, *at),
        Instr::Sub {
            to,
            left,
            right,
            at,
        } => push_three_words_spot(text, *to, *left, *right, *at),
        Instr::Mul {
            to,
            left,
            right,
            at,
        } => push_three_words_spot(text, *to, *left, *right, *at),
        Instr::Div {
            to,
            left,
            right,
            at,
        } => push_three_words_spot(text, *to, *left, *right, *at),
        Instr::Rem {
            to,
            left,
            right,
            at,
        } => push_three_words_spot(text, *to, *left, *right, *at),
        Instr::Cmp {
            to,
            choice,
            left,
            right,
        } => push_word_choice_two_words(text, *to, *choice, *left, *right),
        Instr::Not { to, from } => push_two_words(text, *to, *from),
        Instr::Join {
            to,
            left,
            right,
            at,
        } => push_three_words_spot(text, *to, *left, *right, *at),
        Instr::TextLen { to, from } => push_two_words(text, *to, *from),
        Instr::Slice {
            to,
            from,
            first,
            end,
            at,
        } => push_four_words_spot(text, *to, *from, *first, *end, *at),
        Instr::Byte {
            to,
            from,
            index,
            at,
        } => push_three_words_spot(text, *to, *from, *index, *at),
        Instr::TextOf { to, from } => push_two_words(text, *to, *from),
        Instr::IsNum { to, from } => push_two_words(text, *to, *from),
        Instr::Num { to, from, at } => push_two_words_spot(text, *to, *from, *at),
        Instr::Print { from, choice } => push_word_bit(text, *from, *choice),
        Instr::Jump { target } => push_word(text, *target),
        Instr::Unless { condition, target } => push_two_words(text, *condition, *target),
        Instr::Tick => Ok(()),
        Instr::Call { to, func, args, at } => push_two_words_list_spot(text, *to, *func, args, *at),
        Instr::CallM {
            to,
            interface,
            method,
            object,
            args,
            at,
        } => push_four_words_list_spot(text, *to, *interface, *method, *object, args, *at),
        Instr::CallMLive {
            to,
            interface,
            method,
            object,
            args,
            at,
        } => push_four_words_list_spot(text, *to, *interface, *method, *object, args, *at),
        Instr::Ret { from } => push_word(text, *from),
        Instr::RetVoid => Ok(()),
        Instr::Make { to, kind, args } => push_word_kind_list(text, *to, *kind, args),
        Instr::Borrow { to, from } => push_two_words(text, *to, *from),
        Instr::Frozen { to, from } => push_two_words(text, *to, *from),
        Instr::LoadOwn { to, object, field } => push_three_words(text, *to, *object, *field),
        Instr::Load {
            to,
            object,
            field,
            at,
        } => push_three_words_spot(text, *to, *object, *field, *at),
        Instr::LoadLive { to, object, field } => push_three_words(text, *to, *object, *field),
        Instr::ElemOwn {
            to,
            object,
            index,
            at,
        } => push_three_words_spot(text, *to, *object, *index, *at),
        Instr::Elem {
            to,
            object,
            index,
            at,
        } => push_three_words_spot(text, *to, *object, *index, *at),
        Instr::ElemLive {
            to,
            object,
            index,
            at,
        } => push_three_words_spot(text, *to, *object, *index, *at),
        Instr::Len { to, object, at } => push_two_words_spot(text, *to, *object, *at),
        Instr::LenLive { to, object } => push_two_words(text, *to, *object),
        Instr::SwapOwn {
            to,
            object,
            field,
            value,
        } => push_four_words(text, *to, *object, *field, *value),
        Instr::Swap {
            to,
            object,
            field,
            value,
            at,
        } => push_four_words_spot(text, *to, *object, *field, *value, *at),
        Instr::SwapElOwn {
            to,
            object,
            index,
            value,
            at,
        } => push_four_words_spot(text, *to, *object, *index, *value, *at),
        Instr::SwapEl {
            to,
            object,
            index,
            value,
            at,
        } => push_four_words_spot(text, *to, *object, *index, *value, *at),
        Instr::Push { object, value, at } => push_two_words_spot(text, *object, *value, *at),
        Instr::Pop { to, object, at } => push_two_words_spot(text, *to, *object, *at),
        Instr::Open { to, from } => push_list_word(text, to, *from),
        Instr::Destroy { from, at } => push_word_spot(text, *from, *at),
        Instr::Merge { to, from } => push_two_words(text, *to, *from),
        Instr::Freeze { at } => push_spot(text, *at),
        Instr::ThawMerge { to, from } => push_two_words(text, *to, *from),
        Instr::ThawKeep { to, from } => push_two_words(text, *to, *from),
        Instr::ThawClear => Ok(()),
        Instr::ParRange {
            to,
            first,
            end,
            func,
            args,
            at,
        } => push_four_words_list_spot(text, *to, *first, *end, *func, args, *at),
        Instr::ParEach {
            to,
            array,
            func,
            args,
            at,
        } => push_three_words_list_spot(text, *to, *array, *func, args, *at),
        Instr::Upcast { to, from, kind } => push_two_words_kind(text, *to, *from, *kind),
    }
}

/// The line of the instruction at a place.
pub fn push_instr(text: &mut Vec<u8>, place: usize, instr: &Instr) -> Result<(), Memory>
    ensures { OnOk result (text.new.items ≡ text.old.items ++ instr_line place instr.now) }
{
    text.extend_from_slice(b"  ")?;
    push_decimal(text, place as u64)?;
    text.push(b' ')?;
    text.extend_from_slice(name(instr).as_bytes())?;
    push_operands(text, instr)?;
    text.push(b'\n')?;
    Ok(())
}
