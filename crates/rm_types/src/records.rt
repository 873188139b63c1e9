ghost use Rattle.std.specs.Prelude.{◌≡◌, IfOk};
ghost use Rattle.std.proofs.Common.{rules};

use crate::duplicate::Duplicate;
use crate::ids::{AppId, AttemptId, ContainerId};
use crate::items::Items;
use crate::operations::{How, Submission};
use crate::texts::Text;

/// What the store holds of an attempt.
#[derive(Clone, Debug, Drop)]
pub struct AttemptRecord {
    pub id: AttemptId,
    pub master: ContainerId,
    pub node: Text,
    pub ending: Option<(How, Text)>,
}

/// What the store holds of an application. `end_order` is 0 without an end, else the number of its
/// `AppEnd` among the store's operations.
#[derive(Clone, Debug, Drop)]
pub struct AppRecord {
    pub id: AppId,
    pub submission: Submission,
    pub attempts: Items<AttemptRecord>,
    pub ending: Option<(How, Text)>,
    pub end_order: u64,
}

impl Duplicate for AttemptRecord {
    ghost same = { Prim.search (rules) };
}

impl Duplicate for AppRecord {
    ghost same = { Prim.search (rules) };
}
