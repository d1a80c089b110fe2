//! The format of code files, as a definition: what bytes spell a code with its facts, and the first fault of bytes that
//! spell none (docs/FORMATS.md, "Code files").
#![tactic(auto)]

mod laws;

pub use laws::files_are_unique;
