ghost use Rattle.std.specs.Prelude.{◌≡◌, ◌+◌, ◌≤◌, List, ℕ, length, take, drop, Some, option_map, OnOk, IsErrOf, Bool, true, ◌&&◌, is_ok};
ghost use Rattle.rm_disk.specs.declared.device.DiskError.TheVariants.{DiskFault, Memory};
ghost use Rattle.rm_disk.specs.Disk.{DiskView, put, IfTold, IsDurable, IsQuiet, MayWrite, Falls, IsAsBefore};
ghost use Rattle.rm_types.specs.Counts.{Rose};

use thiserror::Error;

/// Why a call of a disk did not succeed.
#[derive(Clone, Copy, Debug, PartialEq, Eq, Error)]
pub enum DiskError {
    /// The disk failed, and counted the fault.
    #[error("the disk failed")]
    DiskFault,
    /// No memory was found for what the disk keeps of the call.
    #[error("out of memory")]
    Memory,
}

/// A disk of a fixed number of bytes, which may fail at any call and fall at any moment.
///
/// Between two syncs that succeed, a crash may leave anything where bytes were written; all other bytes
/// stay. A disk that does not tell its bytes, as one in a real file, claims nothing about them. On every
/// disk the errors are those that each call names.
pub trait Disk {
    /// The disk as contracts see it: its size, what a read gives, what a crash may leave, and its faults.
    ghost view: { Self → DiskView };

    /// What else holds between the disk before a call and after it, whether the call succeeds (`true`) or
    /// does not. Generic code passes it on, so that its callers learn what their own disk keeps.
    ghost keeps: { Bool → Self → Self → Type 0 };

    /// What a `DiskFault` shows, between the disk before a call and after it: its count of faults rose, and
    /// what else tells whose fault it was. Generic code passes it on too.
    ghost faulted: { Self → Self → Type 0 };

    /// What a fall to an image does, between the disk before it and after it, beyond what it does on every
    /// disk.
    ghost falls_to: { ℕ → Self → Self → Type 0 };

    /// How many writes and syncs the disk has counted, where it counts them: a read adds none, and a write or a sync one
    /// at most. So what bounds it bounds the calls of a disk that counts each.
    ghost counted: { Self → ℕ };

    /// How many bytes the disk has. It never changes.
    fn size(&self) -> u64
        ensures { result ≡ (view self.now).size };

    /// Reads the bytes from an offset on, as many as `into` has, all of them within the size.
    ///
    /// `DiskFault` comes only where the count of faults rose, and says nothing of `into`. `Memory` never comes.
    fn read(&mut self, at: u64, into: &mut [u8]) -> Result<(), DiskError>
        requires { at + length into.old ≤ (view self.old).size }
        ensures bytes { OnOk result (IfTold (view self.old) (λ told. into.new ≡ take (length into.old) (drop at told))) }
        ensures quiet { IsQuiet (view self.old) (view self.new) }
        ensures kept { keeps (is_ok result) self.old self.new }
        ensures counted { counted self.new ≤ counted self.old }
        ensures fault { IsErrOf result DiskFault → faulted self.old self.new }
        ensures memory { IsErrOf result Memory → ⊥ };

    /// Writes bytes at an offset, all of them within the size. Until a sync that succeeds, a crash may leave
    /// anything in their range.
    ///
    /// `DiskFault` comes only where the count of faults rose, and promises nothing of the bytes in the range.
    /// `Memory` leaves all as it was.
    fn write(&mut self, at: u64, bytes: &[u8]) -> Result<(), DiskError>
        requires { at + length bytes.now ≤ (view self.old).size }
        ensures written { OnOk result ((view self.new).told ≡ option_map (put at bytes.now) (view self.old).told) }
        ensures in_range { MayWrite at (length bytes.now) (view self.old) (view self.new) }
        ensures kept { keeps (is_ok result) self.old self.new }
        ensures counted { counted self.new ≤ counted self.old + 1 }
        ensures fault { IsErrOf result DiskFault → faulted self.old self.new }
        ensures memory { IsErrOf result Memory → IsAsBefore (view self.old) (view self.new) };

    /// Makes what was written last: after it a crash leaves what a read gives. No call of it changes what a
    /// read gives.
    ///
    /// `DiskFault` comes only where the count of faults rose. `Memory` leaves all as it was.
    fn sync(&mut self) -> Result<(), DiskError>
        ensures durable { OnOk result (IsDurable (view self.new)) }
        ensures quiet { IsQuiet (view self.old) (view self.new) }
        ensures kept { keeps (is_ok result) self.old self.new }
        ensures counted { counted self.new ≤ counted self.old + 1 }
        ensures fault { IsErrOf result DiskFault → faulted self.old self.new }
        ensures memory { IsErrOf result Memory → IsAsBefore (view self.old) (view self.new) };

    /// Crashes: a read then gives one of the images, which a disk may pick by `image`, and nothing is left
    /// unsynced.
    fn fall(&mut self, image: u32)
        ensures falls { Falls (view self.old) (view self.new) }
        ensures image { falls_to image self.old self.new };

    /// No call at all keeps it.
    ghost keeps_same: { (succeeds : Bool) (disk : Self) → keeps succeeds disk disk };

    /// One call after another keeps it.
    ghost keeps_on: { (one two : Bool) (first second third : Self) → keeps one first second → keeps two second third → keeps (one && two) first third };

    /// Where a disk goes on, and then a call shows a fault, the calls together show it.
    ghost faulted_later: { (succeeds : Bool) (first second third : Self) → keeps succeeds first second → (view first).faults ≤ (view second).faults → faulted second third → faulted first third };

    /// Where a fault is shown, the count of faults rose.
    ghost faulted_counts: { (first second : Self) → faulted first second → Rose (view first).faults (view second).faults };

    /// Each image has the disk's size.
    ghost image_size: { (disk : Self) (image : List ℕ) → (view disk).images image → length image ≡ (view disk).size };

    /// A disk as it reads is one of its images.
    ghost as_it_reads: { (disk : Self) (bytes : List ℕ) → (view disk).told ≡ Some bytes → (view disk).images bytes };

    /// This moment is one of those since an earlier one.
    ghost counts_now: { (disk : Self) (from : ℕ) (image : List ℕ) → from ≤ (view disk).moment → (view disk).images image → (view disk).left_since from image };

    /// Since this moment there is no other.
    ghost only_now: { (disk : Self) (image : List ℕ) → (view disk).left_since (view disk).moment image → (view disk).images image };
}
