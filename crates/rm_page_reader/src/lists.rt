ghost use Rattle.std.specs.Prelude.{◌≡◌, ℕ, List, [], ◌++◌, All, IfOk, IfErr, ◌<◌, length, map, codes};
ghost use Rattle.rm_types.specs.Ranges.{IsContainerId, IsText};
ghost use Rattle.rm_types.specs.declared.texts.TextKind.TheVariants.{Queue};
ghost use Rattle.rm_formats.specs.IdTexts.{container_text};
ghost use Rattle.rm_formats.specs.Wording.{listed, bracketed, cause_text, grant_text, closing_text};
ghost use Rattle.rm_page.specs.Ranges.{IsPageHeld, IsGrant, IsClosing};
ghost use Rattle.rm_page.proofs.Bytes.{cut};
ghost use Rattle.rm_script.specs.Laws.{container_lacks_comma};
ghost use Rattle.rm_page_reader.specs.Items.{text_lacks_comma, grant_lacks_comma, closing_lacks_comma, taken_lacks_comma};
ghost use Rattle.rm_lines.specs.Results.{Finds, IsOf};

use crate::parts::text;
use rm_lines::{
    LineError, LineFault, Reading, container_id, halves, pieces, text_before, text_behind,
};
use rm_types::{Cause, Closing, ContainerId, Grant, Held, Items, Resource, Text, TextKind};
use std::alloc::Global;

/// The size of a container of which a page tells none.
pub(crate) const NO_SIZE: Resource = Resource {
    memory_mb: 0,
    vcores: 0,
};

/// An item with all that a list tells of it.
pub(crate) enum Whole {}

/// An item by the id of its container alone.
pub(crate) enum ByContainer {}

impl Reading<ContainerId> for Whole {
    ghost text = { container_text };

    ghost is = { IsContainerId };

    ghost no_comma = { container_lacks_comma };

    fn read(_alloc: Global, bytes: &[u8]) -> Result<ContainerId, LineError> {
        container_id(bytes)
    }
}

impl Reading<Text> for Whole {
    ghost text = { λ text. text };

    ghost is = { IsText Queue };

    ghost no_comma = { text_lacks_comma };

    fn read(alloc: Global, bytes: &[u8]) -> Result<Text, LineError> {
        text(alloc, bytes, TextKind::Queue)
    }
}

impl Reading<Grant> for Whole {
    ghost text = { grant_text };

    ghost is = { IsGrant };

    ghost no_comma = { grant_lacks_comma };

    fn read(alloc: Global, bytes: &[u8]) -> Result<Grant, LineError> {
        match halves(bytes, b'@') {
            Some((id, node)) => grant(alloc, id, node),
            None => Err(LineError::Refused(LineFault::Form)),
        }
    }
}

impl Reading<Closing> for Whole {
    ghost text = { closing_text };

    ghost is = { IsClosing };

    ghost no_comma = { closing_lacks_comma };

    fn read(_alloc: Global, bytes: &[u8]) -> Result<Closing, LineError> {
        match halves(bytes, b':') {
            Some((id, why)) => closing(id, why),
            None => Err(LineError::Refused(LineFault::Form)),
        }
    }
}

impl Reading<Held> for ByContainer {
    ghost text = { λ held. container_text held.id };

    ghost is = { IsPageHeld };

    ghost no_comma = { taken_lacks_comma };

    fn read(_alloc: Global, bytes: &[u8]) -> Result<Held, LineError> {
        let id = container_id(bytes)?;
        Ok(Held { id, size: NO_SIZE })
    }
}

/// A grant, by its container's id and its node.
fn grant(alloc: Global, id: &[u8], node: &[u8]) -> Result<Grant, LineError>
    ensures { Finds result (λ grant. (id.now ≡ container_text grant.id) × (node.now ≡ grant.node) × IsGrant grant) }
{
    let id = container_id(id)?;
    let node = text(alloc, node, TextKind::Node)?;
    Ok(Grant {
        id,
        node,
        size: NO_SIZE,
    })
}

/// A container that ended, by its id and why it did.
fn closing(id: &[u8], why: &[u8]) -> Result<Closing, LineError>
    ensures { Finds result (λ closing. (id.now ≡ container_text closing.id) × (why.now ≡ cause_text closing.cause) × IsClosing closing) }
{
    let id = container_id(id)?;
    let cause = cause(why)?;
    Ok(Closing { id, cause })
}

/// Why a container ended, by its word.
pub(crate) fn cause(word: &[u8]) -> Result<Cause, LineError>
    ensures { Finds result (λ cause. word.now ≡ cause_text cause) }
{
    match word {
        b"done" => Ok(Cause::Done),
        b"released" => Ok(Cause::Released),
        b"node" => Ok(Cause::Node),
        b"attempt" => Ok(Cause::Attempt),
        b"gone" => Ok(Cause::Gone),
        _ => Err(LineError::Refused(LineFault::Form)),
    }
}

/// The items of a list that has some, with a comma between each two.
fn items_of<R: Reading<T>, T: Drop>(alloc: Global, text: &[u8]) -> Result<Items<T>, LineError>
    requires { 0 < length text.now }
    ensures { Finds result (IsOf (λ items. listed (map R.text items)) (All R.is) text.now) }
{
    let pieces = pieces(alloc, text, b',')?;
    rm_lines::items_of::<R, T>(alloc, pieces.as_slice())
}

/// A list with a comma between each two of its items, which may be empty.
pub(crate) fn listed<R: Reading<T>, T: Drop>(
    alloc: Global,
    text: &[u8],
) -> Result<Items<T>, LineError>
    ensures { Finds result (IsOf (λ items. listed (map R.text items)) (All R.is) text.now) }
{
    if text.is_empty() {
        return Ok(Items::new(alloc));
    }
    items_of::<R, T>(alloc, text)
}

/// What stands in brackets.
fn inside(text: &[u8]) -> Result<&[u8], LineError>
    ensures inside { IfOk result (λ inside. text.now ≡ codes "[" ++ (inside.now ++ codes "]")) }
    ensures none { IfErr result (λ error. (inside : List ℕ) → text.now ≡ codes "[" ++ (inside ++ codes "]") → ⊥) }
{
    text_before(text_behind(text, b"[")?, b"]")
}

/// A list in brackets, which may be empty.
pub(crate) fn bracketed<R: Reading<T>, T: Drop>(
    alloc: Global,
    text: &[u8],
) -> Result<Items<T>, LineError>
    ensures { Finds result (IsOf (λ items. bracketed (map R.text items)) (All R.is) text.now) }
{
    listed::<R, T>(alloc, inside(text)?)
}
