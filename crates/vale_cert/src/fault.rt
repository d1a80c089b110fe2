/// The first rule that is broken, and where: for rule 1 the number of the kind, implementation or function, counted in
/// this order; for the others the number of the instruction, counted through all functions.
#[derive(Clone, Copy, Debug, PartialEq, Eq)]
pub struct Fault {
    pub rule: u8,
    pub at: u32,
}
