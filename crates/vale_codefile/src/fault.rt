use thiserror::Error;

/// The first fault of a code file: its code, from 1 to 5, and the byte at which it is.
#[derive(Clone, Copy, Debug, Drop, PartialEq, Eq, Error)]
#[error("fault {code} of code files at byte {at}")]
pub struct FileFault {
    pub code: u8,
    pub at: u64,
}
