//! What is emitted of a node once its parts are: the code so far and how it grows, the locals in scope and their registers,
//! and the texts and functions of a program by their numbers.
#![tactic(auto)]

mod around;
mod code_buffer;
mod frame;
mod functions;
mod names;
mod nodes;
mod quotes;
mod registers;
mod scope;
mod shapes;
mod texts;

pub use around::Around;
pub use code_buffer::{CodeBuffer, above};
pub use frame::Frame;
pub use functions::{Functions, gives_value};
pub use names::{all_texts, number_of_main, text_of};
pub use nodes::{is_set, put_callee, put_local, put_operator, put_quote, put_set, put_set_only};
pub use registers::registers_in;
pub use scope::{Local, Scope};
pub use shapes::{Call, agree, put_number, put_truth, put_unary};
pub use texts::Texts;
