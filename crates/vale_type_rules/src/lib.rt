//! What the rules of types ask: how types fit, what steps start from and lead to, and what the built-in functions take
//! (docs/LANGUAGE.md, "Types").
#![tactic(auto)]

mod built_in;
mod fitting;
mod steps;

pub use built_in::{arity, built_in_gives, takes_arguments};
pub use fitting::{all_fit, each_fits, fits, is_bool, is_int};
pub use steps::{elements_seen, field_seen, fields_seen, method_seen, methods_seen, struct_fields};
