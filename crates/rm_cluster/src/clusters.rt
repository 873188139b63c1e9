ghost use Rattle.std.specs.Prelude.{◌≡◌, IfOk, IfErr};
ghost use Rattle.serde_json.specs.View.{view};
ghost use Rattle.rm_cluster.specs.Clusters.{IsCluster, IsNoCluster, IsBrokenBy};
ghost use Rattle.rm_cluster.specs.Ranges.{SettingsInRange};
ghost use Rattle.rm_cluster.specs.Rules.{IsSettingsOf};

use crate::limits::GREATEST_LENGTH;
use crate::rules::{
    acl_enable_of, admin_acl_of, groups_of, has_known_keys, max_apps_of, max_attempts_of,
    max_completed_of, max_memory_of, max_vcores_of, queues_of, recover_ended_containers_of,
    wait_ms_of,
};
use rm_types::{NoMemory, Resource, Settings};
use serde_json::Value;
use std::alloc::Global;
use thiserror::Error;

/// Why a cluster file wasn't read.
#[derive(Clone, Copy, Debug, PartialEq, Eq, Error)]
pub enum ClusterError {
    /// The bytes break a rule of the cluster file. The place is that of the first rule that is broken: 1 where
    /// they are too many or no JSON value, 2 where that is no object or has an unknown key, and from 3 to 13 the
    /// key whose value is out of its range, in the order `max_attempts`, `max_completed`, `max_apps`, `wait_ms`,
    /// `acl_enable`, `admin_acl`, `max_memory_mb`, `max_vcores`, `groups`, `queues`, `recover_ended_containers`.
    #[error("the cluster file is refused at place {place}")]
    Refused { place: u32 },
    /// No memory was found for the settings.
    #[error("out of memory")]
    Memory,
}

impl From<NoMemory> for ClusterError {
    ghost use Rattle.std.specs.Prelude.{◌≡◌};
    ghost use Rattle.rm_cluster.specs.declared.clusters.ClusterError.TheVariants.{Memory};

    ghost from_gives = { λ _ error. error ≡ Memory };

    fn from(_error: NoMemory) -> ClusterError {
        ClusterError::Memory
    }
}

/// Reads a cluster file of at most 1,048,576 bytes. `Refused` comes exactly where the bytes break a rule, with
/// the least place; `Memory` may come on any bytes.
pub fn read_cluster(alloc: Global, bytes: &[u8]) -> Result<Settings, ClusterError>
    ensures read { IfOk result (λ settings. IsCluster bytes.now settings) }
    ensures refused { IfErr result (IsNoCluster bytes.now) }
    ensures in_range { IfOk result SettingsInRange }
{
    if bytes.len() > GREATEST_LENGTH {
        return Err(refused(1));
    }
    match Value::from_slice(alloc, bytes) {
        Ok(file) => settings_of(alloc, &file),
        Err(error) if error.is_memory() => Err(ClusterError::Memory),
        Err(_) => Err(refused(1)),
    }
}

fn refused(place: u32) -> ClusterError
    ensures { result ≡ ClusterError.Refused place }
{
    ClusterError::Refused { place }
}

/// The settings of a file that is read as this value, or the first rule from place 2 on that it breaks.
fn settings_of(alloc: Global, file: &Value) -> Result<Settings, ClusterError>
    ensures read { IfOk result (IsSettingsOf (view file.now)) }
    ensures refused { IfErr result (IsBrokenBy (view file.now)) }
    ensures in_range { IfOk result SettingsInRange }
{
    if !has_known_keys(file) {
        return Err(refused(2));
    }
    let max_attempts = max_attempts_of(file).ok_or(refused(3))?;
    let max_completed = max_completed_of(file).ok_or(refused(4))?;
    let max_apps = max_apps_of(file).ok_or(refused(5))?;
    let wait_ms = wait_ms_of(file).ok_or(refused(6))?;
    let acl_enable = acl_enable_of(file).ok_or(refused(7))?;
    let admin_acl = admin_acl_of(alloc, file)?.ok_or(refused(8))?;
    let memory_mb = max_memory_of(file).ok_or(refused(9))?;
    let vcores = max_vcores_of(file).ok_or(refused(10))?;
    let groups = groups_of(alloc, file)?.ok_or(refused(11))?;
    let queues = queues_of(alloc, file)?.ok_or(refused(12))?;
    let recover_ended_containers = recover_ended_containers_of(file).ok_or(refused(13))?;
    Ok(Settings {
        max_attempts,
        max_completed,
        max_apps,
        wait_ms: u64::from(wait_ms),
        acl_enable,
        admin_acl,
        greatest: Resource { memory_mb, vcores },
        groups,
        queues,
        recover_ended_containers,
    })
}
