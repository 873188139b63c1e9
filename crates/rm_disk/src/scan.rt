ghost use Rattle.std.specs.Prelude.{◌≡◌, ◌↔◌, ◌⊎◌, ◌/◌, ◌++◌, [], ◌∷◌, List, ℕ, IsTrue, All, get_or, length};
ghost use Rattle.rm_disk.specs.Scan.{MayBeStore, HasByte, HasSeen};

use rm_formats::FIRST_END;

/// A look for the byte at a place, while bytes are seen a block at a time from the first on.
#[derive(Drop)]
pub struct ByteWatch {
    /// The byte, once it was seen; 0 before that.
    pub byte: u8,
    /// How many bytes are still to be seen until it is seen.
    pub left: usize,
}

impl ByteWatch {
    /// Looks at the next bytes.
    fn see(&mut self, block: &[u8])
        ensures { (place : ℕ) (bytes : List ℕ) → HasByte self.old place bytes → HasByte self.new place (bytes ++ block.now) }
    {
        if self.left == 0 {
            return;
        }
        if self.left > block.len() {
            self.left -= block.len();
            return;
        }
        self.byte = block[self.left - 1];
        self.left = 0;
    }
}

/// A look at bytes, a block at a time from the first on, that asks whether a store may have left them.
#[derive(Drop)]
pub struct Scan {
    /// The first byte of the first half.
    pub first: ByteWatch,
    /// The first byte of the second half.
    pub second: ByteWatch,
    /// How many of the bytes before `FIRST_END` are still to be seen.
    pub front: usize,
    /// Whether each byte that was seen from there on is 0.
    pub is_clear: bool,
}

impl Scan {
    /// A scan that has seen nothing of so many bytes.
    pub fn new(size: usize) -> Scan
        ensures { HasSeen result size [] }
    {
        Scan {
            first: ByteWatch { byte: 0, left: 1 },
            second: ByteWatch {
                byte: 0,
                left: size / 2 + 1,
            },
            front: FIRST_END as usize,
            is_clear: true,
        }
    }

    /// Looks at the next bytes.
    pub fn see(&mut self, block: &[u8])
        ensures { (size : ℕ) (bytes : List ℕ) → HasSeen self.old size bytes → HasSeen self.new size (bytes ++ block.now) }
    {
        self.first.see(block);
        self.second.see(block);
        let skipped = self.front.min(block.len());
        self.front -= skipped;
        self.is_clear = self.is_clear && are_zeros(&block[skipped..]);
    }

    /// Whether the first gate of a half is open.
    pub fn is_open(&self) -> bool
        ensures { (size : ℕ) (bytes : List ℕ) → HasSeen self.now size bytes → IsTrue result ↔ ((get_or bytes 0 0 ≡ 1) ⊎ (get_or bytes (size / 2) 0 ≡ 1)) }
    {
        self.first.byte == 1 || self.second.byte == 1
    }

    /// Whether a store may have left these bytes.
    pub fn may_be_store(&self) -> bool
        ensures { (bytes : List ℕ) → HasSeen self.now (length bytes) bytes → IsTrue result ↔ MayBeStore bytes }
    {
        self.is_open() || self.is_clear
    }
}

/// Whether each of these bytes is 0.
fn are_zeros(bytes: &[u8]) -> bool
    ensures { IsTrue result ↔ All (λ b. b ≡ 0) bytes.now }
{
    bytes.iter().all(|byte| *byte == 0)
}
