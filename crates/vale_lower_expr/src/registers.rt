// How many registers instructions name.
ghost use Rattle.std.specs.Prelude.{◌≡◌, max};
ghost use Rattle.vale_lowering.specs.Lowered.{registers_in};

use vale_code::Instr;

fn larger(one: u64, other: u64) -> u64
    ensures { result ≡ max one other }
{
    if one < other { other } else { one }
}

/// More than each register that one of the instructions names.
#[tactic(auto, using(vale_code::proofs::OperandLaws::larger_laws))]
pub fn registers_in(code: &[Instr]) -> u64
    ensures { result ≡ registers_in code.now }
{
    let mut room: u64 = 0;
    for instr in code {
        room = larger(room, instr.room());
    }
    room
}
