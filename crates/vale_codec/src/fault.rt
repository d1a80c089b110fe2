/// Why bytes are no file of a format.
#[derive(Clone, Copy, Debug, PartialEq, Eq)]
pub enum Reason {
    /// One of the first bytes differs, or isn't there.
    Magic,
    /// The version is another.
    Version,
    /// The file ends inside a part.
    Ends,
    /// A number isn't in its shortest form, or is too large for its field.
    Number,
    /// Bytes follow the last part.
    Trailing,
}

/// The first fault of a file, and how many bytes there are from its place to the file's end: so a fault of a later part is
/// the same for the part and for the whole.
#[derive(Clone, Copy, Debug, PartialEq, Eq)]
pub struct Fault {
    pub reason: Reason,
    pub left: usize,
}
