ghost use Rattle.std.specs.Prelude.{◌≡◌, ◌+◌, ◌≤◌, length, take, drop, option_map, is_ok, OnOk, IsErrOf};
ghost use Rattle.rm_disk.specs.Disk.{put, IfTold, IsAsBefore, IsQuiet, MayWrite};

use rm_disk::{Disk, DiskError};
use rm_types::Items;
use std::marker::Model;

/// Bytes as a disk that is only read. No call of it fails but a write, which finds no memory for a change: so these are the bytes that
/// it has for good.
///
/// Contracts see of it the bytes.
#[derive(Drop)]
pub struct FixedDisk {
    bytes: Items<u8>,
}

impl Model for FixedDisk {
    ghost use Rattle.std.specs.Prelude.{ℕ, List};

    ghost Value = { List ℕ };

    ghost view = { λ d. d.bytes };
}

impl FixedDisk {
    /// The disk of these bytes.
    pub fn new(bytes: Items<u8>) -> FixedDisk
        ensures { result ≡ bytes }
    {
        FixedDisk { bytes }
    }
}

impl Disk for FixedDisk {
    ghost use Rattle.std.specs.Prelude.{◌≡◌, length, refl};
    ghost use Rattle.std.proofs.Common.{◌∙◌, ap};
    ghost use Rattle.rm_tool.specs.salvage.Fixed.{fixed_view};

    ghost view = { λ d. fixed_view d };

    ghost keeps = { λ _ d e. e ≡ d };

    ghost keeps_same = { λ _ _. refl };

    ghost keeps_on = { λ one two first second third before after. after ∙ before };

    ghost counted = { λ _. 0 };

    ghost faulted = { λ _ _. ⊥ };

    ghost falls_to = { λ _ d e. e ≡ d };

    ghost faulted_later = { λ _ _ _ _ _ _ never. never };

    ghost faulted_counts = { λ _ _ never. absurd never };

    ghost image_size = { λ d image is. ap length is };

    ghost as_it_reads = { λ d bytes told. Prim.cc };

    ghost counts_now = { λ d from image le is. is };

    ghost only_now = { λ d image is. is };

    fn size(&self) -> u64 {
        self.bytes.len() as u64
    }

    fn read(&mut self, at: u64, into: &mut [u8]) -> Result<(), DiskError> {
        let from = &self.bytes.as_slice()[at as usize..];
        into.copy_from_slice(&from[..into.len()]);
        Ok(())
    }

    /// Answers `Memory`, and changes nothing.
    fn write(&mut self, _at: u64, _bytes: &[u8]) -> Result<(), DiskError> {
        Err(DiskError::Memory)
    }

    fn sync(&mut self) -> Result<(), DiskError> {
        Ok(())
    }

    /// Changes nothing.
    fn fall(&mut self, _image: u32) {}
}
