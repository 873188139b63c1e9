ghost use Rattle.std.specs.Prelude.{◌≡◌, ◌+◌, ◌-◌, ◌<◌, ◌≤◌, ℕ, List, [], ◌∷◌, ◌++◌, Bool, true, false, None, length, vec_capacity, is_ok, OnOk, OnErr, IfOk, IfErr, IfSome, IsErrOf, Err, Ok};
ghost use Rattle.rm_disk.specs.Disk.{IfTold, IsQuiet};
ghost use Rattle.rm_formats.specs.Device.{IsDamagedAt};
ghost use Rattle.rm_journal.specs.Fault.{IsReadError};
ghost use Rattle.rm_journal.specs.Journal.{region_of, IsOpened};
ghost use Rattle.rm_journal.specs.Walk.{HasWalked, IsWalking, GivesWalked};

use crate::fault::JournalError;
use crate::journal::{BODY_ROOM, Journal, fetch};
use crate::region::{Region, record_at};
use rm_disk::Disk;
use rm_formats::RECORD_HEAD;
use std::alloc::Global;
use std::marker::Model;

/// A walk over the records of a journal before it is known how many there are: from a gate on it gives the payloads, and ends at the closed gate.
#[derive(Drop)]
pub struct Walk {
    from: u64,
    end: u64,
    gate: u64,
    is_done: bool,
    buffer: Vec<u8>,
}

impl Model for Walk {
    ghost use Rattle.std.specs.Prelude.{◌≤◌, vec_capacity};
    ghost use Rattle.rm_journal.specs.declared.journal.TheConstants.{BODY_ROOM};
    ghost use Rattle.rm_journal.specs.Walk.{WalkAt};

    ghost Value = { WalkAt };

    ghost view = { λ w. record { from = w.from; end = w.end; gate = w.gate; is_done = w.is_done } };

    ghost invariant = { λ w. (w.from ≤ w.gate) × (w.gate ≤ w.end) × (BODY_ROOM ≤ vec_capacity w.buffer) };
}

impl Walk {
    /// Syncs, and starts at a gate before which there are records. It finds no damage; `DiskFault` comes where the disk failed.
    pub fn start<D: Disk>(
        alloc: Global,
        disk: &mut D,
        region: Region,
        gate: u64,
    ) -> Result<Walk, JournalError>
        requires inside { region.from + region.size ≤ (D.view disk.old).size }
        requires low { region.from ≤ gate }
        requires high { gate ≤ region.from + region.size }
        requires room { region.from < region.from + region.size → gate < region.from + region.size }
        requires walked { IfTold (D.view disk.old) (λ bytes. (given : List (List ℕ)) × HasWalked (record { from = region.from; end = region.from + region.size; gate = gate; is_done = false }) bytes given) }
        ensures walking { IfOk result (IsWalking (D.view disk.new)) }
        ensures at { IfOk result (λ walk. walk ≡ record { from = region.from; end = region.from + region.size; gate = gate; is_done = false }) }
        ensures kept { D.keeps (is_ok result) disk.old disk.new }
        ensures quiet { IsQuiet (D.view disk.old) (D.view disk.new) }
        ensures fault { IsErrOf result JournalError.DiskFault → D.faulted disk.old disk.new }
        ensures errors { IfErr result IsReadError }
        ensures undamaged { (offset : ℕ) → result ≡ Err (JournalError.Damaged offset) → ⊥ }
    {
        let _size = disk.size();
        disk.sync()?;
        let Ok(buffer) = Vec::with_capacity(alloc, BODY_ROOM) else {
            return Err(JournalError::Memory);
        };
        Ok(Walk {
            from: region.from,
            end: region.from + region.size,
            gate,
            is_done: false,
            buffer,
        })
    }

    /// Puts the next payload into `out`, and answers its gate's offset; `None` comes exactly at the closed gate. `Damaged` tells the gate behind
    /// which no record stands. No byte is changed.
    pub fn next<D: Disk>(
        &mut self,
        disk: &mut D,
        out: &mut Vec<u8>,
    ) -> Result<Option<u64>, JournalError>
        requires { IsWalking (D.view disk.old) self.old }
        ensures walking { IsWalking (D.view disk.new) self.new }
        ensures next { IfOk result (λ gate. IfTold (D.view disk.old) (λ bytes. (given : List (List ℕ)) → HasWalked self.old bytes given → GivesWalked self.old self.new out.new.items bytes given gate)) }
        ensures region { (self.new.from ≡ self.old.from) × (self.new.end ≡ self.old.end) }
        ensures done { result ≡ Ok None → self.new.is_done ≡ true }
        ensures on { IfOk result (λ gate. IfSome gate (λ _. (self.old.gate < self.new.gate) × (self.new.gate ≤ self.new.end))) }
        ensures damaged { (offset : ℕ) → result ≡ Err (JournalError.Damaged offset) → (self.old.from ≤ offset) × IfTold (D.view disk.old) (λ bytes. IsDamagedAt (region_of self.old.from self.old.end bytes) (offset - self.old.from)) }
        ensures kept { D.keeps (is_ok result) disk.old disk.new }
        ensures quiet { IsQuiet (D.view disk.old) (D.view disk.new) }
        ensures fault { IsErrOf result JournalError.DiskFault → D.faulted disk.old disk.new }
        ensures errors { IfErr result IsReadError }
    {
        if self.gate == self.end {
            self.is_done = true;
            return Ok(None);
        }
        let Some(length) = record_at(disk, self.gate, self.end)? else {
            self.is_done = true;
            return Ok(None);
        };
        if out.reserve(length as usize).is_err() {
            return Err(JournalError::Memory);
        }
        fetch(
            disk,
            self.gate + RECORD_HEAD,
            length as usize,
            &mut self.buffer,
        )?;
        out.clear();
        out.extend_from_slice(&self.buffer).unwrap();
        let gate = self.gate;
        self.gate += length + RECORD_HEAD;
        self.is_done = false;
        Ok(Some(gate))
    }

    /// The journal that was walked over to its end; it gives its first payload next. It takes no memory.
    pub fn journal<D: Disk>(self, disk: &D) -> Journal
        requires walking { IsWalking (D.view disk.now) self }
        requires done { self.is_done ≡ true }
        ensures { IsOpened (D.view disk.now) self.from (self.end - self.from) result }
    {
        let _size = disk.size();
        let Walk {
            from,
            end,
            gate,
            is_done: _,
            buffer,
        } = self;
        Journal::standing(from, end, gate, buffer)
    }
}
