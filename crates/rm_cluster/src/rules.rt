ghost use Rattle.std.specs.Prelude.{◌≡◌, IfOk, string_bytes};
ghost use Rattle.std.specs.BTreeMap.{keys};
ghost use Rattle.std.specs.List.{list_all};
ghost use Rattle.serde_json.specs.View.{view};
ghost use Rattle.rm_cluster.specs.Rules.{is_known, has_known_keys, max_attempts_of, max_completed_of, max_apps_of, wait_ms_of, acl_enable_of, admin_acl_of, max_memory_of, max_vcores_of, groups_of, queues_of, recover_ended_containers_of, bare_queue, default_queues};

use crate::groups::user_groups_of;
use crate::limits::{
    DEFAULT_APPS, DEFAULT_ATTEMPTS, DEFAULT_COMPLETED, DEFAULT_MEMORY_MB, DEFAULT_VCORES,
    DEFAULT_WAIT_MS, LONGEST_WAIT_MS, MOST_APPS, MOST_COMPLETED,
};
use crate::queues::queue_tree_of;
use crate::readings::{flag_at, number_at, string_of};
use rm_types::{
    GREATEST_ATTEMPTS, GREATEST_MEMORY_MB, GREATEST_VCORES, Items, NoMemory, QueueSpec, Text,
    TextKind, UserGroups,
};
use serde_json::{Map, Value};
use std::alloc::Global;

#[tactic(auto, unfolding(crate::specs::Rules::is_known))]
pub(crate) fn is_known(key: &str) -> bool
    ensures { result ≡ is_known key.now }
{
    matches!(
        key,
        "max_attempts"
            | "max_completed"
            | "max_apps"
            | "wait_ms"
            | "acl_enable"
            | "admin_acl"
            | "max_memory_mb"
            | "max_vcores"
            | "groups"
            | "queues"
            | "recover_ended_containers"
    )
}

fn are_known(members: &Map<String, Value>) -> bool
    ensures { result ≡ list_all (λ key. is_known (string_bytes key)) (keys members.now) }
{
    members.keys().all(|key| is_known(key.as_str()))
}

/// Whether the file is an object with known keys alone.
#[tactic(auto, using(crate::proofs::Keys::key_tests), unfolding(crate::specs::Rules::has_known_keys))]
pub(crate) fn has_known_keys(file: &Value) -> bool
    ensures { result ≡ has_known_keys (view file.now) }
{
    match file.as_object() {
        Some(members) => are_known(members),
        None => false,
    }
}

/// The global bound on attempts.
#[tactic(auto, unfolding(crate::specs::Rules::max_attempts_of))]
pub(crate) fn max_attempts_of(file: &Value) -> Option<u32>
    ensures { result ≡ max_attempts_of (view file.now) }
{
    number_at(file, "max_attempts", 1, GREATEST_ATTEMPTS, DEFAULT_ATTEMPTS)
}

/// How many completed applications are remembered.
#[tactic(auto, unfolding(crate::specs::Rules::max_completed_of))]
pub(crate) fn max_completed_of(file: &Value) -> Option<u32>
    ensures { result ≡ max_completed_of (view file.now) }
{
    number_at(file, "max_completed", 0, MOST_COMPLETED, DEFAULT_COMPLETED)
}

/// How many applications may run.
#[tactic(auto, unfolding(crate::specs::Rules::max_apps_of))]
pub(crate) fn max_apps_of(file: &Value) -> Option<u32>
    ensures { result ≡ max_apps_of (view file.now) }
{
    number_at(file, "max_apps", 1, MOST_APPS, DEFAULT_APPS)
}

/// How long a recovered manager waits, in milliseconds.
#[tactic(auto, unfolding(crate::specs::Rules::wait_ms_of))]
pub(crate) fn wait_ms_of(file: &Value) -> Option<u32>
    ensures { result ≡ wait_ms_of (view file.now) }
{
    number_at(file, "wait_ms", 0, LONGEST_WAIT_MS, DEFAULT_WAIT_MS)
}

/// Whether rights are checked.
#[tactic(auto, unfolding(crate::specs::Rules::acl_enable_of))]
pub(crate) fn acl_enable_of(file: &Value) -> Option<bool>
    ensures { result ≡ acl_enable_of (view file.now) }
{
    flag_at(file, "acl_enable")
}

/// Who administers all.
#[tactic(auto, unfolding(crate::specs::Rules::admin_acl_of))]
pub(crate) fn admin_acl_of(alloc: Global, file: &Value) -> Result<Option<Text>, NoMemory>
    ensures { IfOk result (λ acl. acl ≡ admin_acl_of (view file.now)) }
{
    match file.get("admin_acl") {
        Some(value) => string_of(alloc, value, TextKind::AclText),
        None => Ok(Some(Text::from_bytes(alloc, b"*")?)),
    }
}

/// The memory of the greatest container, in MB.
#[tactic(auto, unfolding(crate::specs::Rules::max_memory_of))]
pub(crate) fn max_memory_of(file: &Value) -> Option<u32>
    ensures { result ≡ max_memory_of (view file.now) }
{
    number_at(
        file,
        "max_memory_mb",
        1,
        GREATEST_MEMORY_MB,
        DEFAULT_MEMORY_MB,
    )
}

/// The cores of the greatest container.
#[tactic(auto, unfolding(crate::specs::Rules::max_vcores_of))]
pub(crate) fn max_vcores_of(file: &Value) -> Option<u32>
    ensures { result ≡ max_vcores_of (view file.now) }
{
    number_at(file, "max_vcores", 1, GREATEST_VCORES, DEFAULT_VCORES)
}

/// The groups of users.
#[tactic(auto, unfolding(crate::specs::Rules::groups_of))]
pub(crate) fn groups_of(alloc: Global, file: &Value) -> Result<Option<Items<UserGroups>>, NoMemory>
    ensures { IfOk result (λ groups. groups ≡ groups_of (view file.now)) }
{
    match file.get("groups") {
        Some(value) => user_groups_of(alloc, value),
        None => Ok(Some(Items::new(alloc))),
    }
}

/// The queues.
#[tactic(auto, unfolding(crate::specs::Rules::queues_of))]
pub(crate) fn queues_of(alloc: Global, file: &Value) -> Result<Option<Items<QueueSpec>>, NoMemory>
    ensures { IfOk result (λ queues. queues ≡ queues_of (view file.now)) }
{
    match file.get("queues") {
        Some(value) => queue_tree_of(alloc, value),
        None => Ok(Some(default_queues(alloc)?)),
    }
}

fn bare_queue(alloc: Global, name: &[u8]) -> Result<QueueSpec, NoMemory>
    ensures { IfOk result (λ queue. queue ≡ bare_queue name.now) }
{
    Ok(QueueSpec {
        name: Text::from_bytes(alloc, name)?,
        submit: None,
        admin: None,
    })
}

/// The queues of a file without the key.
fn default_queues(alloc: Global) -> Result<Items<QueueSpec>, NoMemory>
    ensures { IfOk result (λ queues. queues ≡ default_queues) }
{
    let mut queues = Items::new(alloc);
    queues.push(bare_queue(alloc, b"root")?)?;
    queues.push(bare_queue(alloc, b"root.default")?)?;
    Ok(queues)
}

/// Whether containers are recovered that ended while no manager stood.
#[tactic(auto, unfolding(crate::specs::Rules::recover_ended_containers_of))]
pub(crate) fn recover_ended_containers_of(file: &Value) -> Option<bool>
    ensures { result ≡ recover_ended_containers_of (view file.now) }
{
    flag_at(file, "recover_ended_containers")
}
