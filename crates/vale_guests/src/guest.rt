// Guests, and a run of one.
use std::alloc::Global;
use vale_base::{Fail, Memory};
use vale_front::{Refusal, front};
use vale_lower::lower;
use vale_machine::{Finished, Input, run};
use vale_sound::accepted_programs_run;
use vale_verifier::{VerifyFault, verify};

/// A guest's program, and how many ticks it may spend.
pub struct Guest {
    pub name: &'static str,
    pub ticks: u64,
    pub text: &'static str,
}

/// The guests, in the order in which they run.
pub const GUESTS: &[Guest] = &[
    Guest {
        name: "squares",
        ticks: 100,
        text: "func main() {\n  foreach n in 1..4 {\n    println(n * n);\n  }\n}\n",
    },
    Guest {
        name: "spinner",
        ticks: 1_000,
        text: "func main() {\n  println(\"round and round\");\n  while true {\n  }\n}\n",
    },
    Guest {
        name: "share",
        ticks: 100,
        text: "func share(n int) int {\n  return 10 / n;\n}\n\nfunc main() {\n  println(share(4));\n  println(share(0));\n}\n",
    },
    Guest {
        name: "typo",
        ticks: 100,
        text: "func main() {\n  println(1 + true);\n}\n",
    },
];

/// Why a guest's program isn't run.
#[derive(Drop)]
pub enum Stop {
    /// It breaks a rule of the language, or has something that isn't served yet.
    Refused(Refusal),
    /// The facts of its code don't certify it. By the contract of `lower` no program that is accepted comes here.
    Uncertified(VerifyFault),
    Memory,
}

impl From<Memory> for Stop {
    fn from(_: Memory) -> Self {
        Stop::Memory
    }
}

impl From<Fail<Refusal>> for Stop {
    fn from(fail: Fail<Refusal>) -> Self {
        match fail {
            Fail::Is(refusal) => Stop::Refused(refusal),
            Fail::Memory => Stop::Memory,
        }
    }
}

impl From<Fail<VerifyFault>> for Stop {
    fn from(fail: Fail<VerifyFault>) -> Self {
        match fail {
            Fail::Is(fault) => Stop::Uncertified(fault),
            Fail::Memory => Stop::Memory,
        }
    }
}

/// What a guest's program prints, and how it ends, with 1 to 2^62 ticks to spend.
pub fn run_guest(alloc: Global, text: &[u8], ticks: u64) -> Result<Finished, Stop> {
    accepted_programs_run();
    let sound = front(alloc, text)?;
    let (code, facts) = lower(alloc, &sound)?;
    let verified = verify(alloc, code, facts)?;
    Ok(run(alloc, &verified, Input::None, ticks.clamp(1, 1 << 62)))
}
