ghost use Rattle.std.specs.Prelude.{◌≡◌, ◌↔◌, ℕ, [], IfOk, IfErr, IsTrue, Some, None, nat_eq};
ghost use Rattle.std.proofs.Common.{rules};
ghost use Rattle.std.specs.Cmp.Lexicographic.{pointwise};
ghost use Rattle.std.specs.Cmp.Rules.{comparing, hashing};
ghost use Rattle.std.specs.Hash as fed;
ghost use Rattle.std.specs.Str.{bytes_eq};
ghost use Rattle.rm_types.specs.Texts.{is_allowed, is_name_byte, is_queue_byte, least_length, greatest_length, first_not_allowed, fault_of};

use crate::duplicate::{Duplicate, NoMemory};
use std::alloc::{AllocError, Global};
use std::hash::{Hash, Hasher};
use std::marker::Model;
use std::sync::ArcSlice;
use thiserror::Error;

/// What a text is for, which says the bytes that may stand in it and how many.
#[derive(Clone, Copy, Debug, PartialEq, Eq)]
pub enum TextKind {
    /// A user, a group or an application's name: 1 to 64 letters, digits, `_`, `.` and `-`.
    Name,
    /// A node: 1 to 64 bytes as of a name, and `:`.
    Node,
    /// A queue's full name: 1 to 128 lower-case letters, digits, `_`, `-` and `.`.
    Queue,
    /// A diagnostic: up to 256 printable bytes, 0x20 to 0x7e.
    Note,
    /// An access control list as it is written: up to 512 printable bytes, 0x20 to 0x7e.
    AclText,
}

/// Why a text wasn't read.
#[derive(Clone, Copy, Debug, PartialEq, Eq, Error)]
pub enum TextError {
    /// The bytes are no text of the kind. The place is the least of: the first byte that isn't allowed;
    /// the greatest length, where the text is longer; 0, where it is empty and mustn't be.
    #[error("no text of its kind: byte {place} is wrong, or the end")]
    NotText { place: usize },
    /// No memory was found for the text.
    #[error("out of memory")]
    Memory,
}

/// A short text. Contracts see the list of its bytes. Its copies share them and take no memory, so that a node's name stands once
/// however many rows and grants name the node.
#[derive(Debug)]
pub struct Text {
    shared: Option<ArcSlice<u8, Global>>,
}

/// Letting a text go is one call, whether or not it has bytes: so a proof about what holds texts has no cases for it.
impl Drop for Text {
    fn drop(self) {
        let Text { shared: _shared } = self;
    }
}

impl Model for Text {
    ghost use Rattle.std.specs.Prelude.{List, ℕ, []};
    ghost use Rattle.std.specs.Option.{option_map_or};
    ghost use Rattle.std.specs.Arc.{arc_slice_items};

    ghost Value = { List ℕ };

    ghost view = { λ t. option_map_or arc_slice_items t.shared [] };
}

impl Text {
    /// Reads the bytes as a text of a kind. `NotText` comes exactly where they are none, with the least
    /// place at fault.
    pub fn read(alloc: Global, bytes: &[u8], kind: TextKind) -> Result<Text, TextError>
        ensures text { IfOk result (λ text. (text ≡ bytes.now) × (fault_of kind bytes.now ≡ None)) }
        ensures not_text { IfErr result (λ error. (place : ℕ) → error ≡ TextError.NotText place → fault_of kind bytes.now ≡ Some place) }
    {
        match fault_of(kind, bytes) {
            Some(place) => Err(TextError::NotText { place }),
            None => match Text::from_bytes(alloc, bytes) {
                Ok(text) => Ok(text),
                Err(NoMemory) => Err(TextError::Memory),
            },
        }
    }

    /// A text of these bytes, whatever they are.
    pub fn from_bytes(alloc: Global, bytes: &[u8]) -> Result<Text, NoMemory>
        ensures { IfOk result (λ text. text ≡ bytes.now) }
    {
        if bytes.is_empty() {
            return Ok(Text::empty());
        }
        let shared = ArcSlice::from_slice(alloc, bytes)?;
        Ok(Text {
            shared: Some(shared),
        })
    }

    /// The text of no bytes. It takes no memory.
    pub fn empty() -> Text
        ensures { result ≡ [] }
    {
        Text { shared: None }
    }

    /// Its bytes.
    pub fn bytes(&self) -> &[u8]
        ensures { result.now ≡ self.now }
    {
        match &self.shared {
            Some(shared) => shared.as_slice(),
            None => &[],
        }
    }

    /// Whether two texts have the same bytes.
    pub fn is_same(&self, other: &Text) -> bool
        ensures same { IsTrue result ↔ (self.now ≡ other.now) }
        ensures bytes { result ≡ bytes_eq self.now other.now }
    {
        self.bytes() == other.bytes()
    }
}

impl Clone for Text {
    ghost is_clone = { λ x y. y ≡ x };

    fn clone(&self) -> Result<Text, AllocError> {
        let shared = match &self.shared {
            Some(shared) => Some(shared.clone()?),
            None => None,
        };
        Ok(Text { shared })
    }
}

impl Duplicate for Text {
    ghost same = { λ x y e. e };
}

/// Texts are equal where their bytes are, so that a text can be a map's key.
impl PartialEq for Text {
    ghost eq = { pointwise nat_eq };

    ghost laws = { Prim.search (comparing, rules) };

    fn eq(&self, other: &Text) -> bool {
        self.bytes() == other.bytes()
    }
}

impl Eq for Text {
    ghost laws = { Prim.search (comparing, rules) };
}

impl Hash for Text {
    ghost hash_input = { λ x. fed.slice fed.u8 x };

    ghost respects_eq = { Prim.search (hashing, rules) };

    fn hash<H: Hasher>(&self, state: &mut H) {
        self.bytes().hash(state);
    }
}

fn is_name_byte(byte: u8) -> bool
    ensures { result ≡ is_name_byte byte }
{
    byte.is_ascii_alphanumeric() || byte == b'_' || byte == b'.' || byte == b'-'
}

fn is_queue_byte(byte: u8) -> bool
    ensures { result ≡ is_queue_byte byte }
{
    byte.is_ascii_lowercase()
        || byte.is_ascii_digit()
        || byte == b'_'
        || byte == b'-'
        || byte == b'.'
}

/// Whether a byte may stand in a text of the kind.
fn is_allowed(kind: TextKind, byte: u8) -> bool
    ensures { result ≡ is_allowed kind byte }
{
    match kind {
        TextKind::Name => is_name_byte(byte),
        TextKind::Node => is_name_byte(byte) || byte == b':',
        TextKind::Queue => is_queue_byte(byte),
        TextKind::Note | TextKind::AclText => byte >= 0x20 && byte <= 0x7e,
    }
}

fn least_length(kind: TextKind) -> usize
    ensures { result ≡ least_length kind }
{
    match kind {
        TextKind::Name | TextKind::Node | TextKind::Queue => 1,
        TextKind::Note | TextKind::AclText => 0,
    }
}

fn greatest_length(kind: TextKind) -> usize
    ensures { result ≡ greatest_length kind }
{
    match kind {
        TextKind::Name | TextKind::Node => 64,
        TextKind::Queue => 128,
        TextKind::Note => 256,
        TextKind::AclText => 512,
    }
}

/// The first byte of these that may not stand in a text of the kind.
fn first_not_allowed(kind: TextKind, bytes: &[u8]) -> Option<usize>
    ensures { result ≡ first_not_allowed kind bytes.now }
{
    bytes.iter().position(|byte| !is_allowed(kind, *byte))
}

/// The least place at fault.
fn fault_of(kind: TextKind, bytes: &[u8]) -> Option<usize>
    ensures { result ≡ fault_of kind bytes.now }
{
    let greatest = greatest_length(kind);
    if bytes.len() < least_length(kind) {
        return Some(0);
    }
    if bytes.len() <= greatest {
        return first_not_allowed(kind, bytes);
    }
    Some(first_not_allowed(kind, &bytes[..greatest]).unwrap_or(greatest))
}
