ghost use Rattle.std.specs.Prelude.{◌≡◌, ◌==◌, IfOk, count_by, string_bytes};
ghost use Rattle.std.specs.BTreeMap.{keys};
ghost use Rattle.std.specs.List.{list_all, list_any};
ghost use Rattle.serde_json.specs.View.{view, items_view};
ghost use Rattle.rm_types.specs.Rights.{is_below, is_queue};
ghost use Rattle.rm_cluster.specs.Queues.{has_queue_keys, is_child, is_part, is_queue_key, is_tree, list_at, may_follow, name_of, queue_list_of, queue_of, queue_tree_of, some_list_of};

use crate::limits::{MOST_DOTS, MOST_QUEUES};
use crate::readings::string_of;
use rm_types::{Items, NoMemory, QueueSpec, Text, TextKind};
use serde_json::{Map, Value};
use std::alloc::Global;

/// The queues of a cluster file: a list of objects that are a tree, and no more than may be.
#[tactic(auto, unfolding(crate::specs::Queues::queue_tree_of))]
pub(crate) fn queue_tree_of(
    alloc: Global,
    value: &Value,
) -> Result<Option<Items<QueueSpec>>, NoMemory>
    ensures { IfOk result (λ queues. queues ≡ queue_tree_of (view value.now)) }
{
    let Some(values) = value.as_array() else {
        return Ok(None);
    };
    let Some(queues) = queue_list_of(alloc, values.as_slice())? else {
        return Ok(None);
    };
    if queues.len() <= MOST_QUEUES && is_tree(queues.as_slice()) {
        Ok(Some(queues))
    } else {
        Ok(None)
    }
}

/// The values as queues, where each is one.
pub(crate) fn queue_list_of(
    alloc: Global,
    values: &[Value],
) -> Result<Option<Items<QueueSpec>>, NoMemory>
    ensures { IfOk result (λ queues. queues ≡ queue_list_of (items_view values.now)) }
{
    let mut queues = Items::new(alloc);
    for value in values {
        let Some(queue) = queue_of(alloc, value)? else {
            return Ok(None);
        };
        queues.push(queue)?;
    }
    Ok(Some(queues))
}

/// A queue: an object with a name and, where they stand, two access control lists.
#[tactic(auto, unfolding(crate::specs::Queues::queue_of))]
fn queue_of(alloc: Global, value: &Value) -> Result<Option<QueueSpec>, NoMemory>
    ensures { IfOk result (λ queue. queue ≡ queue_of (view value.now)) }
{
    if !has_queue_keys(value) {
        return Ok(None);
    }
    let Some(name) = name_of(alloc, value)? else {
        return Ok(None);
    };
    let Some(submit) = list_at(alloc, value, "submit")? else {
        return Ok(None);
    };
    let Some(admin) = list_at(alloc, value, "admin")? else {
        return Ok(None);
    };
    Ok(Some(QueueSpec {
        name,
        submit,
        admin,
    }))
}

#[tactic(auto, unfolding(crate::specs::Queues::is_queue_key))]
pub(crate) fn is_queue_key(key: &str) -> bool
    ensures { result ≡ is_queue_key key.now }
{
    matches!(key, "name" | "submit" | "admin")
}

fn are_queue_keys(members: &Map<String, Value>) -> bool
    ensures { result ≡ list_all (λ key. is_queue_key (string_bytes key)) (keys members.now) }
{
    members.keys().all(|key| is_queue_key(key.as_str()))
}

/// Whether a value is an object with keys of a queue alone.
#[tactic(auto, using(crate::proofs::Keys::key_tests), unfolding(crate::specs::Queues::has_queue_keys))]
pub(crate) fn has_queue_keys(value: &Value) -> bool
    ensures { result ≡ has_queue_keys (view value.now) }
{
    match value.as_object() {
        Some(members) => are_queue_keys(members),
        None => false,
    }
}

/// The name of a queue, which has to stand.
#[tactic(auto, unfolding(crate::specs::Queues::name_of))]
pub(crate) fn name_of(alloc: Global, value: &Value) -> Result<Option<Text>, NoMemory>
    ensures { IfOk result (λ name. name ≡ name_of (view value.now)) }
{
    match value.get("name") {
        Some(name) => string_of(alloc, name, TextKind::Queue),
        None => Ok(None),
    }
}

#[tactic(auto, unfolding(crate::specs::Queues::some_list_of))]
fn some_list_of(alloc: Global, value: &Value) -> Result<Option<Option<Text>>, NoMemory>
    ensures { IfOk result (λ list. list ≡ some_list_of (view value.now)) }
{
    match string_of(alloc, value, TextKind::AclText)? {
        Some(list) => Ok(Some(Some(list))),
        None => Ok(None),
    }
}

/// A list of a queue at a key, where it stands.
#[tactic(auto, unfolding(crate::specs::Queues::list_at))]
pub(crate) fn list_at(
    alloc: Global,
    value: &Value,
    key: &str,
) -> Result<Option<Option<Text>>, NoMemory>
    ensures { IfOk result (λ list. list ≡ list_at key.now (view value.now)) }
{
    match value.get(key) {
        Some(list) => some_list_of(alloc, list),
        None => Ok(Some(None)),
    }
}

/// Whether the first queue is the root, and each other one may stand behind those before it.
fn is_tree(queues: &[QueueSpec]) -> bool
    ensures { result ≡ is_tree queues.now }
{
    let Some(first) = queues.first() else {
        return false;
    };
    if first.name.bytes() != b"root".as_slice() {
        return false;
    }
    'queues: for place in 1..queues.len() {
        if !may_follow(&queues[..place], queues[place].name.bytes()) {
            return false;
        }
    }
    true
}

/// Whether a queue of this name may stand behind others: one of them is its parent, none has its name, and it has eight
/// parts at most.
pub(crate) fn may_follow(before: &[QueueSpec], name: &[u8]) -> bool
    ensures { result ≡ may_follow before.now name.now }
{
    any_parent(before, name) && !is_queue(before, name) && dots_in(name) <= MOST_DOTS
}

pub(crate) fn any_parent(queues: &[QueueSpec], name: &[u8]) -> bool
    ensures { result ≡ list_any (λ queue. is_child name.now queue.name) queues.now }
{
    queues
        .iter()
        .any(|queue| is_child(name, queue.name.bytes()))
}

pub(crate) fn is_queue(queues: &[QueueSpec], name: &[u8]) -> bool
    ensures { result ≡ is_queue queues.now name.now }
{
    queues.iter().any(|queue| queue.name.bytes() == name)
}

fn dots_in(name: &[u8]) -> usize
    ensures { result ≡ count_by (λ byte. byte == 46) name.now }
{
    name.iter().filter(|byte| **byte == b'.').count()
}

/// Whether a name is that of its parent, a dot and one part.
fn is_child(name: &[u8], parent: &[u8]) -> bool
    ensures { result ≡ is_child name.now parent.now }
{
    name.starts_with(parent)
        && name.get(parent.len()) == Some(&b'.')
        && is_part(&name[parent.len() + 1..])
}

/// Whether bytes are a part of a name: they aren't empty, and have no dot.
fn is_part(bytes: &[u8]) -> bool
    ensures { result ≡ is_part bytes.now }
{
    !bytes.is_empty() && !bytes.contains(&b'.')
}
