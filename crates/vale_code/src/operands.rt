// The registers that instructions name.
ghost use Rattle.std.specs.Prelude.{◌≡◌, ◌+◌, max, nat_lt};
ghost use Rattle.std.specs.List.{list_all};
ghost use Rattle.vale_code.specs.Operands.{listed, reads, writes, object_reads, room_of, room_for};

use crate::Instr;

/// Registers, in order.
#[derive(Clone, Copy)]
pub enum Registers<'a> {
    Nothing,
    One(u32),
    Two(u32, u32),
    Three(u32, u32, u32),
    These(&'a [u32]),
    OneAnd(u32, &'a [u32]),
    TwoAnd(u32, u32, &'a [u32]),
}

fn are_below(registers: &[u32], count: u32) -> bool
    ensures { result ≡ list_all (λ r. nat_lt r count) registers.now }
{
    for register in registers {
        if *register >= count {
            return false;
        }
    }
    true
}

fn larger(one: u64, other: u64) -> u64
    ensures { result ≡ max one other }
{
    if one < other { other } else { one }
}

// More than this register.
fn above(register: u32) -> u64
    ensures { result ≡ register + 1 }
{
    u64::from(register) + 1
}

// More than each of these registers.
#[tactic(auto, using(crate::proofs::OperandLaws::larger_laws))]
fn room_of(registers: &[u32]) -> u64
    ensures { result ≡ room_of registers.now }
{
    let mut room: u64 = 0;
    for register in registers {
        room = larger(room, above(*register));
    }
    room
}

impl<'a> Registers<'a> {
    /// Whether each is one of the first `count` registers.
    pub fn are_below(self, count: u32) -> bool
        ensures { result ≡ list_all (λ r. nat_lt r count) (listed self.entry) }
    {
        match self {
            Registers::Nothing => true,
            Registers::One(a) => a < count,
            Registers::Two(a, b) => a < count && b < count,
            Registers::Three(a, b, c) => a < count && b < count && c < count,
            Registers::These(more) => are_below(more, count),
            Registers::OneAnd(a, more) => a < count && are_below(more, count),
            Registers::TwoAnd(a, b, more) => a < count && b < count && are_below(more, count),
        }
    }

    /// More than each of them.
    #[tactic(auto, using(crate::proofs::OperandLaws::larger_laws))]
    pub fn room(self) -> u64
        ensures { result ≡ room_of (listed self.entry) }
    {
        match self {
            Registers::Nothing => 0,
            Registers::One(a) => above(a),
            Registers::Two(a, b) => larger(above(a), above(b)),
            Registers::Three(a, b, c) => larger(above(a), larger(above(b), above(c))),
            Registers::These(more) => room_of(more),
            Registers::OneAnd(a, more) => larger(above(a), room_of(more)),
            Registers::TwoAnd(a, b, more) => larger(above(a), larger(above(b), room_of(more))),
        }
    }
}

fn object_reads(instr: &Instr) -> Registers<'_>
    ensures { listed result ≡ object_reads instr.now }
{
    match instr {
        Instr::Make { args, .. } => Registers::These(args.as_slice()),
        Instr::Borrow { from, .. }
        | Instr::Frozen { from, .. }
        | Instr::Open { from, .. }
        | Instr::Destroy { from, .. }
        | Instr::Merge { from, .. }
        | Instr::ThawMerge { from, .. }
        | Instr::ThawKeep { from, .. }
        | Instr::Upcast { from, .. } => Registers::One(*from),
        Instr::LoadOwn { object, .. }
        | Instr::Load { object, .. }
        | Instr::LoadLive { object, .. }
        | Instr::Len { object, .. }
        | Instr::LenLive { object, .. }
        | Instr::Pop { object, .. } => Registers::One(*object),
        Instr::ElemOwn { object, index, .. }
        | Instr::Elem { object, index, .. }
        | Instr::ElemLive { object, index, .. } => Registers::Two(*object, *index),
        Instr::SwapOwn { object, value, .. }
        | Instr::Swap { object, value, .. }
        | Instr::Push { object, value, .. } => Registers::Two(*object, *value),
        Instr::SwapElOwn {
            object,
            index,
            value,
            ..
        }
        | Instr::SwapEl {
            object,
            index,
            value,
            ..
        } => Registers::Three(*object, *index, *value),
        Instr::ParRange {
            first,
            end,
            args,
            ..
        } => Registers::TwoAnd(*first, *end, args.as_slice()),
        Instr::ParEach { array, args, .. } => Registers::OneAnd(*array, args.as_slice()),
        _ => Registers::Nothing,
    }
}

impl Instr {
    /// The registers that it reads, in the order of its form.
    pub fn reads(&self) -> Registers<'_>
        ensures { listed result ≡ reads self.now }
    {
        match self {
            Instr::Copy { from, .. }
            | Instr::Move { from, .. }
            | Instr::Not { from, .. }
            | Instr::TextLen { from, .. }
            | Instr::TextOf { from, .. }
            | Instr::IsNum { from, .. }
            | Instr::Num { from, .. }
            | Instr::Print { from, .. }
            | Instr::Ret { from } => Registers::One(*from),
            Instr::Unless { condition, .. } => Registers::One(*condition),
            Instr::Add { left, right, .. }
            | Instr::Sub { left, right, .. }
            | Instr::Mul { left, right, .. }
            | Instr::Div { left, right, .. }
            | Instr::Rem { left, right, .. }
            | Instr::Cmp { left, right, .. }
            | Instr::Join { left, right, .. } => Registers::Two(*left, *right),
            Instr::Slice {
                from,
                first,
                end,
                ..
            } => Registers::Three(*from, *first, *end),
            Instr::Byte { from, index, .. } => Registers::Two(*from, *index),
            Instr::Call { args, .. } => Registers::These(args.as_slice()),
            Instr::CallM { object, args, .. } | Instr::CallMLive { object, args, .. } => {
                Registers::OneAnd(*object, args.as_slice())
            }
            _ => object_reads(self),
        }
    }

    /// The registers that it writes, in order. That of a void result is among them.
    pub fn writes(&self) -> Registers<'_>
        ensures { listed result ≡ writes self.now }
    {
        match self {
            Instr::Int { to, .. }
            | Instr::Truth { to, .. }
            | Instr::Text { to, .. }
            | Instr::Copy { to, .. }
            | Instr::Move { to, .. }
            | Instr::Add { to, .. }
            | Instr::Sub { to, .. }
            | Instr::Mul { to, .. }
            | Instr::Div { to, .. }
            | Instr::Rem { to, .. }
            | Instr::Cmp { to, .. }
            | Instr::Not { to, .. }
            | Instr::Join { to, .. }
            | Instr::TextLen { to, .. }
            | Instr::Slice { to, .. }
            | Instr::Byte { to, .. }
            | Instr::TextOf { to, .. }
            | Instr::IsNum { to, .. }
            | Instr::Num { to, .. }
            | Instr::Call { to, .. }
            | Instr::CallM { to, .. }
            | Instr::CallMLive { to, .. }
            | Instr::Make { to, .. }
            | Instr::Borrow { to, .. }
            | Instr::Frozen { to, .. }
            | Instr::LoadOwn { to, .. }
            | Instr::Load { to, .. }
            | Instr::LoadLive { to, .. }
            | Instr::ElemOwn { to, .. }
            | Instr::Elem { to, .. }
            | Instr::ElemLive { to, .. }
            | Instr::Len { to, .. }
            | Instr::LenLive { to, .. }
            | Instr::SwapOwn { to, .. }
            | Instr::Swap { to, .. }
            | Instr::SwapElOwn { to, .. }
            | Instr::SwapEl { to, .. }
            | Instr::Pop { to, .. }
            | Instr::Merge { to, .. }
            | Instr::ThawMerge { to, .. }
            | Instr::ThawKeep { to, .. }
            | Instr::ParRange { to, .. }
            | Instr::ParEach { to, .. }
            | Instr::Upcast { to, .. } => Registers::One(*to),
            Instr::Open { to, .. } => Registers::These(to.as_slice()),
            Instr::Print { .. }
            | Instr::Jump { .. }
            | Instr::Unless { .. }
            | Instr::Tick
            | Instr::Ret { .. }
            | Instr::RetVoid
            | Instr::Push { .. }
            | Instr::Destroy { .. }
            | Instr::Freeze { .. }
            | Instr::ThawClear => Registers::Nothing,
        }
    }

    /// More than each register that it names.
    pub fn room(&self) -> u64
        ensures { result ≡ room_for self.now }
    {
        larger(self.writes().room(), self.reads().room())
    }
}
