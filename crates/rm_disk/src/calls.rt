use rm_types::Items;

/// A call that changed a disk in memory, as its record keeps it.
#[derive(Drop)]
pub enum Call {
    /// Bytes were written at an offset.
    Write { at: u64, bytes: Items<u8> },
    /// What a read gives was made to last.
    Sync,
    /// The disk fell to an image.
    Fall { image: u32 },
}
