//! The code that programs are turned into: its kinds, functions and instructions, and what they mean.
#![tactic(auto)]

mod code;
mod func;
mod instr;
mod kind;
mod laws;
mod operands;
mod sequence;
mod sizes;
#[cfg(test)]
mod tests;
mod ty;

pub use code::Code;
pub use func::{Func, Impl};
pub use instr::Instr;
pub use kind::{Field, KindInfo, MethodInfo};
pub use laws::{
    code_is_small, cut_where_no_tick_is_left, more_ticks_go_further, names_never_return, run_ends,
    stamps_rise, the_dead_are_not_dropped, ticks_stay_within,
};
pub use operands::Registers;
pub use sequence::Sequence;
pub use ty::Ty;
