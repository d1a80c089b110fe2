// A code with the facts that certify it.
ghost use Rattle.vale_cert.specs.Certificate.{Certified};

use vale_cert::Facts;
use vale_code::Code;

/// A code and facts that certify it: what a machine runs (docs/FORMATS.md, "Certificates").
#[derive(Drop)]
pub struct Verified {
    pub code: Code,
    pub facts: Facts,
    pub ghost certified: { ∥ Certified code facts ∥₁ },
}

fn is_send<T: Send>() {}

fn is_sync<T: Sync>() {}

// Certified code may move to another thread and be read from several.
fn crosses_threads() {
    is_send::<Verified>();
    is_sync::<Verified>();
}
