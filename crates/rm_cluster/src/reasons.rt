ghost use Rattle.std.specs.Prelude.{◌≡◌, ◌<◌, ◌↔◌, IfOk, length};
ghost use Rattle.rm_cluster.specs.Clusters.{HoldsNone, greatest_cluster_length};
ghost use Rattle.rm_cluster.specs.Faults.{IsJson, IsOfValue};

use crate::faults::{ClusterFault, Excerpt, GroupsFault, Key, QueueList, QueuesFault};
use crate::groups::user_of;
use crate::limits::{GREATEST_LENGTH, MOST_QUEUES};
use crate::queues::{
    any_parent, has_queue_keys, is_queue, is_queue_key, list_at, may_follow, name_of, queue_list_of,
};
use crate::readings::{string_of, text_of};
use crate::rules::{
    acl_enable_of, admin_acl_of, has_known_keys, is_known, max_apps_of, max_attempts_of,
    max_completed_of, max_memory_of, max_vcores_of, recover_ended_containers_of, wait_ms_of,
};
use rm_types::{NoMemory, QueueSpec, TextKind};
use serde_json::{Map, Value};
use std::alloc::Global;

/// What stands at a key of an object.
fn found_at(file: &Value, key: &str) -> Excerpt {
    match file.get(key) {
        Some(value) => Excerpt::of_value(value),
        None => Excerpt::of(b"nothing"),
    }
}

/// The fault of a key, where its rule is broken.
fn broken_key(is_broken: bool, key: Key, file: &Value, name: &str) -> Option<ClusterFault>
    ensures { IsOfValue result }
{
    if is_broken {
        let found = found_at(file, name);
        Some(ClusterFault::Key { key, found })
    } else {
        None
    }
}

/// What is wrong with the keys of a file, where something is.
fn keys_fault(file: &Value) -> Option<ClusterFault>
    ensures { IsOfValue result }
{
    if has_known_keys(file) {
        return None;
    }
    match file.as_object() {
        Some(members) => {
            let key = members.keys().find(|key| !is_known(key.as_str()))?;
            Some(ClusterFault::UnknownKey {
                key: Excerpt::of(key.as_bytes()),
            })
        }
        None => Some(ClusterFault::NoObject {
            found: Excerpt::of_value(file),
        }),
    }
}

/// What is wrong with a user and what stands for its groups, where something is.
fn user_fault(alloc: Global, key: &String, value: &Value) -> Result<Option<GroupsFault>, NoMemory> {
    if user_of(alloc, key, value)?.is_some() {
        return Ok(None);
    }
    let user = Excerpt::of(key.as_bytes());
    if text_of(alloc, key.as_bytes(), TextKind::Name)?.is_none() {
        return Ok(Some(GroupsFault::User { user }));
    }
    match value.as_array() {
        Some(values) => group_fault(alloc, user, values.as_slice()),
        None => Ok(Some(GroupsFault::NoList {
            user,
            found: Excerpt::of_value(value),
        })),
    }
}

/// The first value that is no group of a user.
fn group_fault(
    alloc: Global,
    user: Excerpt,
    values: &[Value],
) -> Result<Option<GroupsFault>, NoMemory> {
    for value in values {
        if string_of(alloc, value, TextKind::Name)?.is_none() {
            let found = Excerpt::of_value(value);
            return Ok(Some(GroupsFault::Group { user, found }));
        }
    }
    Ok(None)
}

/// The first user with which something is wrong.
fn users_fault(
    alloc: Global,
    members: &Map<String, Value>,
) -> Result<Option<GroupsFault>, NoMemory> {
    for (key, value) in members {
        let fault = user_fault(alloc, key, value)?;
        if fault.is_some() {
            return Ok(fault);
        }
    }
    Ok(None)
}

/// What is wrong with the groups of a file, where something is.
fn groups_fault(alloc: Global, file: &Value) -> Result<Option<GroupsFault>, NoMemory> {
    let Some(value) = file.get("groups") else {
        return Ok(None);
    };
    match value.as_object() {
        Some(members) => users_fault(alloc, members),
        None => Ok(Some(GroupsFault::NoObject {
            found: Excerpt::of_value(value),
        })),
    }
}

/// What is wrong with the keys of a queue, where something is.
fn queue_keys_fault(place: usize, value: &Value) -> Option<QueuesFault> {
    if has_queue_keys(value) {
        return None;
    }
    match value.as_object() {
        Some(members) => {
            let key = members.keys().find(|key| !is_queue_key(key.as_str()))?;
            Some(QueuesFault::UnknownKey {
                place,
                key: Excerpt::of(key.as_bytes()),
            })
        }
        None => Some(QueuesFault::NoObject {
            place,
            found: Excerpt::of_value(value),
        }),
    }
}

/// What is wrong with the name of a queue, where something is.
fn queue_name_fault(
    alloc: Global,
    place: usize,
    value: &Value,
) -> Result<Option<QueuesFault>, NoMemory> {
    if name_of(alloc, value)?.is_some() {
        return Ok(None);
    }
    Ok(Some(match value.get("name") {
        Some(name) => QueuesFault::Name {
            place,
            found: Excerpt::of_value(name),
        },
        None => QueuesFault::NoName { place },
    }))
}

/// What is wrong with a list of a queue, where something is.
fn queue_list_fault(
    alloc: Global,
    value: &Value,
    list: QueueList,
) -> Result<Option<QueuesFault>, NoMemory> {
    if list_at(alloc, value, list.key())?.is_some() {
        return Ok(None);
    }
    let name = match value.get("name") {
        Some(name) => name.as_str().unwrap_or(""),
        None => "",
    };
    Ok(Some(QueuesFault::List {
        name: Excerpt::of(name.as_bytes()),
        list,
        found: found_at(value, list.key()),
    }))
}

/// What is wrong with the queue at a place of the list, by itself.
fn queue_fault(
    alloc: Global,
    place: usize,
    value: &Value,
) -> Result<Option<QueuesFault>, NoMemory> {
    if let Some(fault) = queue_keys_fault(place, value) {
        return Ok(Some(fault));
    }
    if let Some(fault) = queue_name_fault(alloc, place, value)? {
        return Ok(Some(fault));
    }
    if let Some(fault) = queue_list_fault(alloc, value, QueueList::Submit)? {
        return Ok(Some(fault));
    }
    queue_list_fault(alloc, value, QueueList::Admin)
}

/// What is wrong with a queue of this name behind others, where something is.
fn follow_fault(before: &[QueueSpec], name: &[u8]) -> Option<QueuesFault> {
    if may_follow(before, name) {
        return None;
    }
    let told = Excerpt::of(name);
    Some(if !any_parent(before, name) {
        QueuesFault::NoParent { name: told }
    } else if is_queue(before, name) {
        QueuesFault::Twice { name: told }
    } else {
        QueuesFault::Deep { name: told }
    })
}

/// What keeps queues from being a tree, where something does.
fn tree_fault(queues: &[QueueSpec]) -> Option<QueuesFault> {
    let Some(first) = queues.first() else {
        return Some(QueuesFault::None);
    };
    if first.name.bytes() != b"root".as_slice() {
        let name = Excerpt::of(first.name.bytes());
        return Some(QueuesFault::NoRoot { name });
    }
    for place in 1..queues.len() {
        let fault = follow_fault(&queues[..place], queues[place].name.bytes());
        if fault.is_some() {
            return fault;
        }
    }
    None
}

/// What is wrong with the values as queues, where something is.
fn values_fault(alloc: Global, values: &[Value]) -> Result<Option<QueuesFault>, NoMemory> {
    for (place, value) in values.iter().enumerate() {
        if let Some(fault) = queue_fault(alloc, place + 1, value)? {
            return Ok(Some(fault));
        }
    }
    if values.len() > MOST_QUEUES {
        return Ok(Some(QueuesFault::TooMany {
            count: values.len(),
        }));
    }
    match queue_list_of(alloc, values)? {
        Some(queues) => Ok(tree_fault(queues.as_slice())),
        None => Ok(None),
    }
}

/// What is wrong with the queues of a file, where something is.
fn queues_fault(alloc: Global, file: &Value) -> Result<Option<QueuesFault>, NoMemory> {
    let Some(value) = file.get("queues") else {
        return Ok(None);
    };
    match value.as_array() {
        Some(values) => values_fault(alloc, values.as_slice()),
        None => Ok(Some(QueuesFault::NoList {
            found: Excerpt::of_value(value),
        })),
    }
}

/// What is wrong with the value at a key that has neither groups nor queues.
fn key_fault(file: &Value, place: u32) -> Option<ClusterFault>
    ensures { IsOfValue result }
{
    match place {
        2 => keys_fault(file),
        3 => broken_key(
            max_attempts_of(file).is_none(),
            Key::MaxAttempts,
            file,
            "max_attempts",
        ),
        4 => broken_key(
            max_completed_of(file).is_none(),
            Key::MaxCompleted,
            file,
            "max_completed",
        ),
        5 => broken_key(max_apps_of(file).is_none(), Key::MaxApps, file, "max_apps"),
        6 => broken_key(wait_ms_of(file).is_none(), Key::WaitMs, file, "wait_ms"),
        7 => broken_key(
            acl_enable_of(file).is_none(),
            Key::AclEnable,
            file,
            "acl_enable",
        ),
        9 => broken_key(
            max_memory_of(file).is_none(),
            Key::MaxMemory,
            file,
            "max_memory_mb",
        ),
        10 => broken_key(
            max_vcores_of(file).is_none(),
            Key::MaxVcores,
            file,
            "max_vcores",
        ),
        _ => None,
    }
}

/// What breaks the rule at a place, where something does.
fn value_fault(alloc: Global, file: &Value, place: u32) -> Result<Option<ClusterFault>, NoMemory>
    ensures { IfOk result IsOfValue }
{
    match place {
        8 => {
            let is_broken = admin_acl_of(alloc, file)?.is_none();
            Ok(broken_key(is_broken, Key::AdminAcl, file, "admin_acl"))
        }
        11 => Ok(groups_fault(alloc, file)?.map(ClusterFault::Groups)),
        12 => Ok(queues_fault(alloc, file)?.map(ClusterFault::Queues)),
        13 => {
            let is_broken = recover_ended_containers_of(file).is_none();
            let key = Key::RecoverEndedContainers;
            Ok(broken_key(is_broken, key, file, "recover_ended_containers"))
        }
        _ => Ok(key_fault(file, place)),
    }
}

/// Why the bytes are refused at this place, as `read_cluster` tells it. For that the file is read once more; where no memory is found,
/// and of bytes and a place that no reading refused, the rule of the place is told.
pub fn why(alloc: Global, bytes: &[u8], place: u32) -> ClusterFault
    ensures long { (result ≡ ClusterFault.TooLong) ↔ (greatest_cluster_length < length bytes.now) }
    ensures json { IsJson result → HoldsNone bytes.now }
{
    if bytes.len() > GREATEST_LENGTH {
        return ClusterFault::TooLong;
    }
    match Value::from_slice(alloc, bytes) {
        Ok(file) => match value_fault(alloc, &file, place) {
            Ok(Some(fault)) => fault,
            _ => ClusterFault::Untold { place },
        },
        Err(error) if error.is_memory() || place != 1 => ClusterFault::Untold { place },
        Err(error) => ClusterFault::Json(error),
    }
}
