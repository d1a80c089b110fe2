//! Where heaps get their pages: the interface of a lender, the plain table of one thread, and the table that all workers
//! of a run draw from.
#![tactic(auto)]

mod desk;
mod lender;
mod plain;
mod rule;
mod seat;
mod table;
mod threads;
mod view;

pub use desk::Desk;
pub use lender::Lender;
pub use plain::PlainTable;
pub use seat::Seat;
pub use table::SharedTable;
