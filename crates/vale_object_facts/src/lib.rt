//! The facts that certify the code of a program with owners, as definitions: what is known at a place (`Slots`), before each instruction of a part (`Stands`), and the labels of the whole (`Facts`); what the certificate needs of a program's types (`Suits`), and the law that lowered functions break no rule of instructions with these facts (`Faultless`).
#![tactic(auto)]

mod laws;

pub use laws::lowered_functions_break_no_rule;
