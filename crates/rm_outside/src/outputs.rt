ghost use Rattle.std.specs.Prelude.{◌≡◌, ◌≢◌, ◌≤◌, None, IfOk, length};
ghost use Rattle.std.specs.Io.{WritesAtMost};

use crate::sinks::{Sink, SinkError};
use std::io;
use std::io::ErrorKind;
use std::marker::Model;

/// How often an interrupted write is tried again before it counts as refused.
const MOST_TRIES: u32 = 1_000_000;

/// The standard output as a sink. It tells no bytes: contracts see its counts alone.
#[derive(Drop)]
pub struct OutSink<R> {
    rt: R,
    faults: u64,
    idle: u64,
    last_fault: Option<io::Error>,
}

impl<R> Model for OutSink<R> {
    ghost use Rattle.rm_outside.specs.Sinks.{SinkCounts};

    ghost Value = { SinkCounts };

    ghost view = { λ s. record { faults = s.faults; idle = s.idle } };
}

impl<R> OutSink<R> {
    /// A sink with no fault and no idle write so far. It writes nothing.
    pub fn new(rt: R) -> OutSink<R>
        ensures { result ≡ record { faults = 0; idle = 0 } }
    {
        OutSink {
            rt,
            faults: 0,
            idle: 0,
            last_fault: None,
        }
    }

    /// Why the last write that was refused was. Contracts don't see it.
    pub fn last_fault(&self) -> Option<&io::Error> {
        self.last_fault.as_ref()
    }
}

impl<R: Print> Sink for OutSink<R> {
    ghost use Rattle.rm_outside.specs.Sinks.{counts_after};

    ghost taken = { λ _. None };

    ghost faults = { λ s. s.faults };

    ghost idle = { λ s. s.idle };

    /// `SinkFault` comes where the system refused the write; one that it says was interrupted is tried again.
    /// There is no `Memory`.
    fn write(&mut self, bytes: &[u8]) -> Result<usize, SinkError>
        ensures count { WritesAtMost result bytes.now }
        ensures after { self.new ≡ counts_after self.old result bytes.now }
        ensures no_memory { result ≢ Err SinkError.Memory }
        ensures faults_never_fall { self.old.faults ≤ self.new.faults }
        ensures idle_never_falls { self.old.idle ≤ self.new.idle }
    {
        match write_part(&self.rt, bytes) {
            Ok(count) => {
                if count == 0 && !bytes.is_empty() {
                    self.idle = self.idle.saturating_add(1);
                }
                Ok(count)
            }
            Err(error) => {
                self.last_fault = Some(error);
                self.faults = self.faults.saturating_add(1);
                Err(SinkError::SinkFault)
            }
        }
    }
}

/// Writes a first part of the bytes, and says how many that is.
fn write_part<R: Print>(rt: &R, bytes: &[u8]) -> io::Result<usize>
    ensures { IfOk result (λ count. count ≤ length bytes.now) }
{
    'again: for _ in 0..MOST_TRIES {
        match rt.write_some(bytes) {
            Err(error) if error.kind() == ErrorKind::Interrupted => {}
            outcome => return outcome,
        }
    }
    Err(io::Error::from(ErrorKind::Interrupted))
}
