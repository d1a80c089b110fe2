//! From a program's text to its typed tree, or to why it is refused.
#![tactic(auto)]

mod frontend;
mod interfaces;
mod judging;
mod reading;
mod refusal;
mod served;

pub use frontend::front;
pub use reading::read;
pub use refusal::Refusal;
