//! What programs mean: definitions that know no code, no pages and no workers. They stand in `specs/`; the code has the
//! laws that hold of them.
#![tactic(auto)]

mod laws;

pub use laws::{
    cut_where_no_tick_is_left, more_ticks_go_further, names_never_return, stamps_rise,
    the_dead_are_not_dropped, ticks_stay_within,
};
