// Answers.
ghost use Rattle.std.specs.Prelude.{◌≡◌, string_bytes};

use std::marker::Model;
use vale_base::Text;

/// A file that is to be written, which contracts see by the bytes of its name.
#[derive(Drop)]
pub struct NewFile {
    name: String,
    bytes: Text,
}

impl Model for NewFile {
    ghost use Rattle.std.specs.Prelude.{string_bytes};
    ghost use Rattle.vale_ports.specs.declared.files.File.{File};

    ghost Value = { File };

    ghost view = { λ f. record { name = string_bytes f.name; bytes = f.bytes } };
}

impl NewFile {
    /// The file of this name, with these bytes. It takes no memory.
    pub fn new(name: String, bytes: Text) -> Self
        ensures name { result.name ≡ string_bytes name }
        ensures bytes { result.bytes ≡ bytes }
    {
        NewFile { name, bytes }
    }

    /// The name.
    pub fn name(&self) -> &str
        ensures { result.now ≡ self.now.name }
    {
        self.name.as_str()
    }

    /// The bytes.
    pub fn bytes(&self) -> &[u8]
        ensures { result.now ≡ self.now.bytes }
    {
        self.bytes.as_slice()
    }
}

/// A status, and what goes with it: a file to be written, and the bytes for `out` and `err`.
#[derive(Drop)]
pub struct Answer {
    pub status: u8,
    pub file: Option<NewFile>,
    pub out: Text,
    pub err: Text,
}
