//! What every other crate speaks of: spots in a text, names and kinds, the limits, texts, want of memory, and what a
//! run gives.
#![tactic(auto)]

mod fault;
mod limits;
mod name;
mod piece;
mod spot;
mod text;
mod trap;

pub use fault::{Fail, Memory};
pub use limits::{
    CODE_FILE_LIMIT, DEPTH_LIMIT, FIRST_GENERATION_DEFAULT, FRAMES_DEFAULT, FRAMES_LIMIT,
    INPUT_LIMIT, LEVEL_LIMIT, LOCALS_LIMIT, PROGRAM_LIMIT, REPORT_FRAMES, SLOTS, TEXT_LIMIT,
    TICKS_DEFAULT, TICKS_LIMIT, WIDTH_LIMIT, WORKERS_DEFAULT, WORKERS_LIMIT,
};
pub use name::{Kind, Name};
pub use piece::Piece;
pub use spot::Spot;
pub use text::Text;
pub use trap::{FrameAt, Frames, TrapInfo, TrapKind};
