ghost use Rattle.std.specs.Prelude.{◌≡◌, ◌≤◌, []};
ghost use Rattle.rm_outside.specs.Writes.{IsTaken, CountsFaults, CountsIdle};

use crate::sinks::{Sink, SinkError};

/// How a page was written.
#[derive(Clone, Copy, PartialEq, Eq)]
pub enum Written {
    /// The sink took all of it.
    All,
    /// A write was refused. The sink took the page's beginning alone.
    Fault,
    /// A write took nothing of what was left. The sink took the page's beginning alone.
    Nothing,
    /// A write found no memory. The sink took the page's beginning alone.
    Memory,
}

/// Writes all the bytes, in as many pieces as the sink wants, up to the first that it doesn't take.
///
/// `Fault` comes only where the count of faults rose, and `Nothing` only where the count of idle writes
/// did. No other count moves. Of no bytes it makes no call, so the sink then stays as it was.
pub fn write_all<K: Sink>(sink: &mut K, bytes: &[u8]) -> Written
    ensures taken { IsTaken result (K.taken sink.old) (K.taken sink.new) bytes.now }
    ensures faults { CountsFaults result (K.faults sink.old) (K.faults sink.new) }
    ensures idle { CountsIdle result (K.idle sink.old) (K.idle sink.new) }
    ensures faults_never_fall { K.faults sink.old ≤ K.faults sink.new }
    ensures idle_never_falls { K.idle sink.old ≤ K.idle sink.new }
    ensures empty { bytes.now ≡ [] → (result ≡ Written.All) × (sink.new ≡ sink.old) }
{
    let mut done = 0;
    'pieces: while done < bytes.len() {
        match sink.write(&bytes[done..]) {
            Ok(0) => return Written::Nothing,
            Ok(count) => done += count,
            Err(SinkError::SinkFault) => return Written::Fault,
            Err(SinkError::Memory) => return Written::Memory,
        }
    }
    Written::All
}
