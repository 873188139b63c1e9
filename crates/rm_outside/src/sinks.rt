ghost use Rattle.std.specs.Prelude.{◌≡◌, ◌≤◌, ◌<◌, ◌↔◌, ◌++◌, ℕ, List, [], Option, Some, Contains, length, min, IfOk, OnOk, OnErr};
ghost use Rattle.std.specs.Io.{WritesAtMost};
ghost use Rattle.std.specs.Io.KnownBytes.{WriteAppends};
ghost use Rattle.rm_types.specs.Counts.{risen, Rose};

use crate::calls::Calls;
use rm_types::{Items, NoMemory};
use std::alloc::Global;
use std::marker::Model;
use std::mem;
use thiserror::Error;

/// Why a piece wasn't taken.
#[derive(Clone, Copy, Debug, PartialEq, Eq, Error)]
pub enum SinkError {
    /// The device refused. The count of faults rose.
    #[error("the device refused the text")]
    SinkFault,
    /// No memory was found for the piece.
    #[error("out of memory")]
    Memory,
}

/// Where text is written to.
///
/// A sink may tell the bytes that it took. It counts its faults, and the writes that took nothing of a
/// piece that isn't empty. A count that rises stands still at 2^64 - 1.
pub trait Sink {
    /// The bytes taken so far, in order, where the sink tells them.
    ghost taken: { Self → Option (List ℕ) };

    /// How many calls failed.
    ghost faults: { Self → ℕ };

    /// How many calls took nothing of a piece that isn't empty.
    ghost idle: { Self → ℕ };

    /// Takes a first part of a piece, and says how many bytes that is. An error took none of it.
    ///
    /// `SinkFault` comes only where the count of faults rose, and `Memory` only for want of memory. The
    /// count of faults changes by `SinkFault` alone. The count of idle writes rises exactly by an `Ok(0)`
    /// to a piece that isn't empty.
    fn write(&mut self, bytes: &[u8]) -> Result<usize, SinkError>
        ensures count { WritesAtMost result bytes.now }
        ensures taken { WriteAppends (taken self.old) (taken self.new) result bytes.now }

        ensures faults_never_fall { faults self.old ≤ faults self.new }
        ensures fault { result ≡ Err SinkError.SinkFault → Rose (faults self.old) (faults self.new) }
        ensures no_fault { OnOk result (faults self.new ≡ faults self.old) }
        ensures memory { result ≡ Err SinkError.Memory → faults self.new ≡ faults self.old }

        ensures idle_never_falls { idle self.old ≤ idle self.new }
        ensures idle { IfOk result (λ count. count ≡ 0 → 0 < length bytes.now → Rose (idle self.old) (idle self.new)) }
        ensures some { IfOk result (λ count. 0 < count → idle self.new ≡ idle self.old) }
        ensures empty { bytes.now ≡ [] → idle self.new ≡ idle self.old }
        ensures refused { OnErr result (idle self.new ≡ idle self.old) };
}

/// A sink in memory, which fails where it is told to. It tells the bytes that it took.
#[derive(Drop)]
pub struct MemSink {
    alloc: Global,
    taken: Items<u8>,
    calls: Calls,
    most: usize,
    faults: u64,
    idle: u64,
}

impl Model for MemSink {
    ghost use Rattle.rm_outside.specs.Sinks.{MemSinkState};

    ghost Value = { MemSinkState };

    ghost view = { λ s. record { taken = s.taken; failing = s.calls.failing; most = s.most; calls = s.calls.made; faults = s.faults; idle = s.idle } };
}

impl MemSink {
    /// A sink that takes at most `most` bytes in a call, so none where that is 0. The calls of these
    /// numbers fail, counted from 1. It took nothing and has no call, fault or idle write so far.
    pub fn new(alloc: Global, failing: Items<u64>, most: usize) -> MemSink
        ensures { result ≡ record { taken = []; failing = failing; most = most; calls = 0; faults = 0; idle = 0 } }
    {
        MemSink {
            alloc,
            taken: Items::new(alloc),
            calls: Calls { failing, made: 0 },
            most,
            faults: 0,
            idle: 0,
        }
    }

    /// The bytes taken so far, in order.
    pub fn taken(&self) -> &Items<u8>
        ensures { result.now ≡ self.now.taken }
    {
        &self.taken
    }
}

impl Sink for MemSink {
    ghost use Rattle.rm_outside.specs.Sinks.{sink_after};

    ghost taken = { λ s. Some s.taken };

    ghost faults = { λ s. s.faults };

    ghost idle = { λ s. s.idle };

    /// `SinkFault` comes exactly where the call's number is among those that fail. Else the sink takes
    /// as much of the piece as it takes in a call, if there is memory for it. Each answer counts as a
    /// call.
    fn write(&mut self, bytes: &[u8]) -> Result<usize, SinkError>
        ensures fault { (result ≡ Err SinkError.SinkFault) ↔ Contains self.old.failing (risen self.old.calls) }
        ensures count { IfOk result (λ count. count ≡ min (length bytes.now) self.old.most) }
        ensures after { self.new ≡ sink_after self.old result bytes.now }
        ensures faults_never_fall { self.old.faults ≤ self.new.faults }
        ensures idle_never_falls { self.old.idle ≤ self.new.idle }
    {
        if self.calls.next_fails() {
            self.faults = self.faults.saturating_add(1);
            return Err(SinkError::SinkFault);
        }
        let count = bytes.len().min(self.most);
        match append(self.alloc, &mut self.taken, &bytes[..count]) {
            Ok(()) => {
                if count == 0 && !bytes.is_empty() {
                    self.idle = self.idle.saturating_add(1);
                }
                Ok(count)
            }
            Err(NoMemory) => Err(SinkError::Memory),
        }
    }
}

/// Adds the piece at the end, or nothing where there is no memory for it.
fn append(alloc: Global, bytes: &mut Items<u8>, piece: &[u8]) -> Result<(), NoMemory>
    ensures ok { OnOk result (bytes.new ≡ bytes.old ++ piece.now) }
    ensures err { OnErr result (bytes.new ≡ bytes.old) }
{
    let mut list = mem::replace(bytes, Items::new(alloc)).into_vec();
    let appended = list.extend_from_slice(piece);
    *bytes = Items::from_vec(list);
    appended?;
    Ok(())
}
