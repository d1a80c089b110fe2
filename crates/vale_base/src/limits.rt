//! The limits of the language and of a run (docs/LANGUAGE.md, "Limits"). `specs/Limits.antt` has those that contracts
//! of other crates name.

/// The most bytes of a program's text.
pub const PROGRAM_LIMIT: usize = 1_048_576;

/// The most bytes of a program's input.
pub const INPUT_LIMIT: usize = 16_777_216;

/// The most bytes of a code file.
pub const CODE_FILE_LIMIT: usize = 268_435_456;

/// The most levels of nesting that are open at a token.
pub const LEVEL_LIMIT: usize = 64;

/// The most locals of a function, its parameters included.
pub const LOCALS_LIMIT: usize = 1_024;

/// The most bytes of a `str`.
pub const TEXT_LIMIT: usize = 65_536;

/// The most elements of an array, and the most iterations of a parallel loop.
pub const WIDTH_LIMIT: usize = 1_048_576;

/// The most functions, destructions, freezes and iterations that are under way at once.
pub const DEPTH_LIMIT: u64 = 100_000;

/// The most innermost frames that a trap names one by one.
pub const REPORT_FRAMES: usize = 64;

/// The most workers of a run. The least is 1.
pub const WORKERS_LIMIT: u32 = 64;

/// How many workers a run has where the command line doesn't say.
pub const WORKERS_DEFAULT: u32 = 4;

/// The most ticks of a run: 2^62. The least is 1.
pub const TICKS_LIMIT: u64 = 4_611_686_018_427_387_904;

/// How many ticks a run has where the command line doesn't say.
pub const TICKS_DEFAULT: u64 = 1_000_000_000;

/// The most frames of a run. The least is 1.
pub const FRAMES_LIMIT: u32 = 4_096;

/// How many frames a run has where the command line doesn't say.
pub const FRAMES_DEFAULT: u32 = 4_096;

/// The first generation of every slot where the command line doesn't say.
pub const FIRST_GENERATION_DEFAULT: u64 = 1;

/// The slots of a page.
pub const SLOTS: usize = 64;
