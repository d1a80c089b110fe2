//! Which tokens begin a program, and where the first token stands that none goes through, as definitions above the grammar.
#![tactic(auto)]
