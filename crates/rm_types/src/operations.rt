ghost use Rattle.std.specs.Prelude.{◌≡◌, IfOk};
ghost use Rattle.std.proofs.Common.{rules};
ghost use Rattle.rm_types.specs.Empty.{no_submission};

use crate::duplicate::Duplicate;
use crate::ids::{AppId, AttemptId, ContainerId};
use crate::resources::Resource;
use crate::texts::Text;

/// What a client submits: who, to which queue, under which name, the size of the master's container,
/// how many attempts it may have (0: as many as the cluster allows), whether the containers of a failed
/// attempt are kept for the next one, and who else may modify it.
#[derive(Clone, Debug, Drop)]
pub struct Submission {
    pub user: Text,
    pub queue: Text,
    pub name: Text,
    pub master: Resource,
    pub attempts: u32,
    pub keep: bool,
    pub modify: Text,
}

impl Submission {
    /// What nobody submitted: all texts are empty, all numbers 0, and nothing is kept. Who makes a submission says the parts that it
    /// has and takes the others from here.
    pub fn empty() -> Submission
        ensures { result ≡ no_submission }
    {
        Submission {
            user: Text::empty(),
            queue: Text::empty(),
            name: Text::empty(),
            master: Resource {
                memory_mb: 0,
                vcores: 0,
            },
            attempts: 0,
            keep: false,
            modify: Text::empty(),
        }
    }
}

impl Duplicate for Submission {
    ghost same = { Prim.search (rules) };
}

/// How an attempt or an application ended.
#[derive(Clone, Copy, Debug, PartialEq, Eq)]
pub enum How {
    Finished,
    Failed,
    Killed,
}

/// An operation of the store. What a store holds is the list of its operations, in order.
#[derive(Clone, Debug, Drop)]
pub enum Op {
    /// A life began: the epoch that the next life has, and this life's stamp.
    Epoch {
        next: u32,
        stamp: u64,
    },
    /// An application was submitted.
    App {
        id: AppId,
        submission: Submission,
    },
    /// An attempt has its master's container, on a node.
    Attempt {
        id: AttemptId,
        master: ContainerId,
        node: Text,
    },
    /// An attempt ended, with its diagnostics.
    AttemptEnd {
        id: AttemptId,
        how: How,
        text: Text,
    },
    /// An application ended, with its diagnostics.
    AppEnd {
        id: AppId,
        how: How,
        text: Text,
    },
    /// An ended application is forgotten.
    Remove {
        id: AppId,
    },
}

impl Duplicate for Op {
    ghost same = { Prim.search (rules) };
}

/// An application that was submitted in this life and isn't kept yet.
#[derive(Drop)]
pub struct Submitted {
    pub id: AppId,
    pub submission: Submission,
}
