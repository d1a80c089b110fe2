//! What of the language is served so far, as a definition over the typed tree. It goes away once all of it is.
#![tactic(auto)]
