//! Where reading stops, by the grammar: the tokens before can be completed to a program, and no program goes on as they do.
#![tactic(auto)]
