use vale_names::Names;

/// What is kept of the items before one.
#[derive(Drop)]
pub struct Before {
    /// Their names.
    pub names: Names,
    /// The structs of their lawful `drop` functions.
    pub dropped: Names,
    /// Whether a function named `main` is among them.
    pub has_main: bool,
}
