ghost use Rattle.std.specs.Prelude.{◌≡◌, IfOk};
ghost use Rattle.std.proofs.Common.{rules};
ghost use Rattle.rm_types.specs.Empty.{no_settings};

use crate::duplicate::Duplicate;
use crate::items::Items;
use crate::resources::Resource;
use crate::texts::Text;
use std::alloc::Global;

/// A queue of the cluster file: its full name, and its submit and admin lists where it has them.
#[derive(Clone, Debug, Drop)]
pub struct QueueSpec {
    pub name: Text,
    pub submit: Option<Text>,
    pub admin: Option<Text>,
}

/// The groups that a user is in.
#[derive(Clone, Debug, Drop)]
pub struct UserGroups {
    pub user: Text,
    pub groups: Items<Text>,
}

/// What the cluster file sets: the global bound on attempts, how many completed applications are
/// remembered, how many may run, how long a recovered manager waits before it allocates (in
/// milliseconds), whether it tells masters of containers that ended while it was down, whether rights are
/// checked, who administers all, the greatest container, the groups of users and the queues.
#[derive(Clone, Debug, Drop)]
pub struct Settings {
    pub max_attempts: u32,
    pub max_completed: u32,
    pub max_apps: u32,
    pub wait_ms: u64,
    pub recover_ended_containers: bool,
    pub acl_enable: bool,
    pub admin_acl: Text,
    pub greatest: Resource,
    pub groups: Items<UserGroups>,
    pub queues: Items<QueueSpec>,
}

impl Settings {
    /// The settings of no cluster file: all numbers are 0, nothing is asked for, and there is no queue. Who makes settings says the
    /// parts that it has and takes the others from here.
    pub fn empty(alloc: Global) -> Settings
        ensures { result ≡ no_settings }
    {
        Settings {
            max_attempts: 0,
            max_completed: 0,
            max_apps: 0,
            wait_ms: 0,
            recover_ended_containers: false,
            acl_enable: false,
            admin_acl: Text::empty(),
            greatest: Resource {
                memory_mb: 0,
                vcores: 0,
            },
            groups: Items::new(alloc),
            queues: Items::new(alloc),
        }
    }
}

impl Duplicate for QueueSpec {
    ghost same = { Prim.search (rules) };
}

impl Duplicate for UserGroups {
    ghost same = { Prim.search (rules) };
}

impl Duplicate for Settings {
    ghost same = { Prim.search (rules) };
}
