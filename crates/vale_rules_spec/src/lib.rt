//! Which programs are well formed, as definitions over the tree and the typed tree: declarations, types and ownership, in
//! one form for all phases that refuse (docs/LANGUAGE.md, "Refusals").
#![tactic(auto)]
