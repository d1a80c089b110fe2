/// What a run passes on its way, for hosts and tests that watch it. It promises nothing.
pub trait Gate {
    /// The code that is about to run has so many checked and elided instructions.
    fn code(&self, kept: u64, elided: u64);

    /// A worker is about to begin.
    fn pass(&self, worker: u32);
}

/// A gate that does nothing.
#[derive(Clone, Copy, Debug)]
pub struct OpenGate;

impl Gate for OpenGate {
    fn code(&self, _kept: u64, _elided: u64) {}

    fn pass(&self, _worker: u32) {}
}
