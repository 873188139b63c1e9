ghost use Rattle.std.specs.Prelude.{◌≡◌, ℕ, List, [], ◌∷◌, ◌++◌, map, None};
ghost use Rattle.rm_types.specs.Ranges.{IsContainerId};
ghost use Rattle.rm_types.specs.Messages.{IsList, IsHeld, IsAsk};
ghost use Rattle.rm_formats.specs.IdTexts.{container_text};
ghost use Rattle.rm_formats.specs.Wording.{listed, list_word, held_text, ask_text};
ghost use Rattle.rm_lines.specs.Cuts.{after_label};
ghost use Rattle.rm_lines.specs.Results.{Finds, IsOf};
ghost use Rattle.rm_script.specs.Pieces.{held_parts, ask_parts, IsSomeList};
ghost use Rattle.rm_script.specs.Laws.{container_lacks_comma, held_lacks_comma, ask_lacks_comma};

use rm_lines::{LineError, LineFault, Part, Reading, Words, container_id, number, pieces};
use rm_types::{
    Ask, ContainerId, GREATEST_COUNT, GREATEST_MEMORY_MB, GREATEST_PRIORITY, GREATEST_VCORES, Held,
    Items, MOST_LISTED, Resource,
};
use std::alloc::Global;

/// An item as a line of a script says it.
pub(crate) enum Said {}

impl Reading<ContainerId> for Said {
    ghost text = { container_text };

    ghost is = { IsContainerId };

    ghost no_comma = { container_lacks_comma };

    fn read(_alloc: Global, word: &[u8]) -> Result<ContainerId, LineError> {
        container_id(word)
    }
}

impl Reading<Held> for Said {
    ghost text = { held_text };

    ghost is = { IsHeld };

    ghost no_comma = { held_lacks_comma };

    fn read(alloc: Global, word: &[u8]) -> Result<Held, LineError> {
        let parts = pieces(alloc, word, b':')?;
        held_of(parts.as_slice())
    }
}

impl Reading<Ask> for Said {
    ghost text = { ask_text };

    ghost is = { IsAsk };

    ghost no_comma = { ask_lacks_comma };

    fn read(alloc: Global, word: &[u8]) -> Result<Ask, LineError> {
        let parts = pieces(alloc, word, b':')?;
        ask_of(parts.as_slice())
    }
}

/// A container that runs, by the parts of its text.
fn held_of(parts: &[&[u8]]) -> Result<Held, LineError>
    ensures { Finds result (IsOf held_parts IsHeld (map (λ part. part.now) parts.now)) }
{
    match parts {
        [id, memory, vcores] => held_with(id, memory, vcores),
        _ => Err(LineError::Refused(LineFault::Form)),
    }
}

/// The same by each part.
fn held_with(id: &[u8], memory: &[u8], vcores: &[u8]) -> Result<Held, LineError>
    ensures { Finds result (IsOf held_parts IsHeld (id.now ∷ memory.now ∷ vcores.now ∷ [])) }
{
    let id = container_id(id)?;
    let memory_mb = number(memory, Part::Memory, 1, GREATEST_MEMORY_MB)?;
    let vcores = number(vcores, Part::Cores, 1, GREATEST_VCORES)?;
    Ok(Held {
        id,
        size: Resource { memory_mb, vcores },
    })
}

/// An ask, by the parts of its text.
fn ask_of(parts: &[&[u8]]) -> Result<Ask, LineError>
    ensures { Finds result (IsOf ask_parts IsAsk (map (λ part. part.now) parts.now)) }
{
    match parts {
        [priority, count, memory, vcores] => ask_with(priority, count, memory, vcores),
        _ => Err(LineError::Refused(LineFault::Form)),
    }
}

/// The same by each part.
fn ask_with(priority: &[u8], count: &[u8], memory: &[u8], vcores: &[u8]) -> Result<Ask, LineError>
    ensures { Finds result (IsOf ask_parts IsAsk (priority.now ∷ count.now ∷ memory.now ∷ vcores.now ∷ [])) }
{
    let priority = number(priority, Part::Priority, 1, GREATEST_PRIORITY)?;
    let count = number(count, Part::Count, 0, GREATEST_COUNT)?;
    let memory_mb = number(memory, Part::Memory, 1, GREATEST_MEMORY_MB)?;
    let vcores = number(vcores, Part::Cores, 1, GREATEST_VCORES)?;
    Ok(Ask {
        priority,
        count,
        size: Resource { memory_mb, vcores },
    })
}

/// The items of a list that has some, by its text.
fn items_of<R: Reading<T>, T: Drop>(alloc: Global, text: &[u8]) -> Result<Items<T>, LineError>
    ensures { Finds result (IsOf (λ items. listed (map R.text items)) (IsSomeList R.is) text.now) }
{
    let pieces = pieces(alloc, text, b',')?;
    if pieces.len() > MOST_LISTED {
        return Err(LineError::Refused(LineFault::Items {
            count: pieces.len(),
        }));
    }
    rm_lines::items_of::<R, T>(alloc, pieces.as_slice())
}

/// The items of a list that may be left out, by its label and the words that are left.
pub(crate) fn one_list<R: Reading<T>, T: Drop>(
    alloc: Global,
    mut words: Words<'_>,
    label: &[u8],
) -> Result<Items<T>, LineError>
    ensures { Finds result (IsOf (λ items. list_word label.now (map R.text items)) (IsList R.is) words.entry) }
{
    if words.is_empty() {
        return Ok(Items::new(alloc));
    }
    let items = items_of::<R, T>(alloc, words.field(label)?)?;
    words.end()?;
    Ok(items)
}

/// The items of two lists, either of which may be left out, by their labels and the words that are left. No word begins with
/// both labels.
pub(crate) fn two_lists<R: Reading<A>, S: Reading<B>, A: Drop, B: Drop>(
    alloc: Global,
    mut words: Words<'_>,
    first: &[u8],
    second: &[u8],
) -> Result<(Items<A>, Items<B>), LineError>
    requires { (text : List ℕ) → after_label first.now (second.now ++ text) ≡ None }
    ensures { Finds result (IsOf (λ lists. list_word first.now (map R.text lists.0) ++ list_word second.now (map S.text lists.1)) (λ lists. IsList R.is lists.0 × IsList S.is lists.1) words.entry) }
{
    match words.optional_field(first) {
        Some(text) => {
            let one = items_of::<R, A>(alloc, text)?;
            let other = one_list::<S, B>(alloc, words, second)?;
            Ok((one, other))
        }
        None => {
            let other = one_list::<S, B>(alloc, words, second)?;
            Ok((Items::new(alloc), other))
        }
    }
}
