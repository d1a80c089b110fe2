// Writing a whole list of bytes.
ghost use Rattle.std.specs.Prelude.{◌≤◌, IfErr, OnOk, length, take};
ghost use Rattle.std.specs.Io.KnownBytes.{Appends};
ghost use Rattle.vale_ports.specs.Faults.{HasCause};

use crate::{Failed, Sink};

/// A sink failed once it had taken so many bytes.
#[derive(Clone, Copy, Debug, PartialEq, Eq)]
pub struct SinkFailed {
    pub done: u64,
}

/// Writes all the bytes. It takes no memory. The refusal comes only where the sink's count of faults rose; the first
/// `done` bytes went out.
pub fn write_all<O: Sink>(sink: &mut O, bytes: &[u8]) -> Result<(), SinkFailed>
    ensures ok { OnOk result (Appends (O.state sink.old).written (O.state sink.new).written bytes.now) }
    ensures within { IfErr result (λ e. e.done ≤ length bytes.now) }
    ensures err { IfErr result (λ e. Appends (O.state sink.old).written (O.state sink.new).written (take e.done bytes.now)) }
    ensures cause { HasCause (O.state sink.old).faults (O.state sink.new).faults result }
{
    let mut done = 0;
    while done < bytes.len() {
        match sink.write(&bytes[done..]) {
            Ok(count) => done += count,
            Err(Failed) => return Err(SinkFailed { done: done as u64 }),
        }
    }
    Ok(())
}
