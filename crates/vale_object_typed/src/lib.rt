//! The types of a typed program's parts fit, as the certificate of its code needs: which programs that is said of (`Covered`), what their code's tables have (`Tables`), and the laws (`Fit`): so lowered code breaks no rule of instructions.
#![tactic(auto)]

mod laws;

pub use laws::{lowered_code_breaks_no_rule, lowered_code_has_tables, types_of_typed_programs_fit};
