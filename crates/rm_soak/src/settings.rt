ghost use Rattle.std.specs.Prelude.{◌≡◌, IfOk};
ghost use Rattle.rm_types.specs.Limits.{greatest_attempts};
ghost use Rattle.rm_types.specs.Ranges.{IsWithin};
ghost use Rattle.rm_queues.specs.Rules.{KeepsRules};
ghost use Rattle.rm_cluster.specs.Rules.{bare_queue};
ghost use Rattle.rm_soak.specs.Settings.{AreDefault, soak_settings};

use crate::limits::SOAK_COMPLETED;
use rm_cluster::{
    DEFAULT_APPS, DEFAULT_ATTEMPTS, DEFAULT_MEMORY_MB, DEFAULT_VCORES, DEFAULT_WAIT_MS,
};
use rm_types::{Items, NoMemory, QueueSpec, Resource, Settings, Text};
use std::alloc::Global;

/// The settings of a soak: those of a cluster file without keys, but that fewer completed applications are
/// remembered: `SOAK_COMPLETED`.
///
/// `NoMemory` comes where no memory was found for them.
#[tactic(auto, using(crate::proofs::Default::soak_default))]
pub fn soak_settings(alloc: Global) -> Result<Settings, NoMemory>
    ensures settings { IfOk result (λ settings. settings ≡ soak_settings) }
    ensures default { AreDefault soak_settings }

    // What a manager asks of settings.
    ensures queues { IfOk result KeepsRules }
    ensures limits { IfOk result (λ settings. IsWithin 1 greatest_attempts settings.max_attempts) }
{
    let admin_acl = Text::from_bytes(alloc, b"*")?;
    let mut queues = Items::new(alloc);
    queues.push(bare_queue(alloc, b"root")?)?;
    queues.push(bare_queue(alloc, b"root.default")?)?;
    Ok(Settings {
        max_attempts: DEFAULT_ATTEMPTS,
        max_completed: SOAK_COMPLETED,
        max_apps: DEFAULT_APPS,
        wait_ms: u64::from(DEFAULT_WAIT_MS),
        admin_acl,
        greatest: Resource {
            memory_mb: DEFAULT_MEMORY_MB,
            vcores: DEFAULT_VCORES,
        },
        queues,
        ..Settings::empty(alloc)
    })
}

/// A queue without lists.
fn bare_queue(alloc: Global, name: &[u8]) -> Result<QueueSpec, NoMemory>
    ensures { IfOk result (λ queue. queue ≡ bare_queue name.now) }
{
    let name = Text::from_bytes(alloc, name)?;
    Ok(QueueSpec {
        name,
        submit: None,
        admin: None,
    })
}
