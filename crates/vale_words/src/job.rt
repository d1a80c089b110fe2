use std::marker::Model;

/// The workers whose turns they are, one after another, which contracts see as their list.
#[derive(Drop)]
pub struct Schedule {
    turns: Vec<u32>,
}

impl Model for Schedule {
    ghost use Rattle.std.specs.Prelude.{ℕ, List};

    ghost Value = { List ℕ };

    ghost view = { λ s. s.turns.items };
}

impl Schedule {
    ghost use Rattle.std.specs.Prelude.{◌≡◌};

    /// These turns. It takes no memory.
    pub fn from_vec(turns: Vec<u32>) -> Self
        ensures { result ≡ turns.items }
    {
        Schedule { turns }
    }

    /// The turns.
    pub fn as_slice(&self) -> &[u32]
        ensures { result.now ≡ self.now }
    {
        &self.turns
    }
}

/// How a program is to be run.
#[derive(Drop)]
pub struct Options {
    /// How many workers there are: 1 to 64.
    pub workers: u32,
    /// The most ticks that may be spent: 1 to 2^62.
    pub ticks: u64,
    /// The most frames that may be out at once: 1 to 4,096.
    pub frames: u32,
    /// The first generation of each slot: 1 to 2^64 - 1.
    pub first: u64,
    /// The workers' turns, each from 0 to 63, where they are stated.
    pub schedule: Option<Schedule>,
}

/// What is to be done. A `file` or `code` is the index of the word that holds the name; `n`, from 1 to 10,000, is the
/// number of a generated program.
#[derive(Drop)]
pub enum Job {
    Run { file: u32, options: Options },
    Check { file: u32 },
    Fmt { file: u32 },
    Build { file: u32, code: u32 },
    Exec { code: u32, options: Options },
    List { code: u32 },
    Gen { n: u32, options: Options },
    GenText { n: u32 },
}

/// The words have no meaning. The words before `index` begin a lawful list, and with the next one they don't; where
/// the words only end too early, `index` is their number.
#[derive(Clone, Copy, Debug, PartialEq, Eq)]
pub struct WordFault {
    pub index: u32,
}
