ghost use Rattle.std.specs.Prelude.{◌≡◌, IsTrue, OnOk, OnErr};
ghost use Rattle.rm_types.specs.Records.{apps_recorded};
ghost use Rattle.rm_tree.specs.Changes.{FitsApps};

use crate::apps::Apps;
use rm_types::{AppRecord, AttemptRecord, Duplicate, Items, NoMemory, Op};
use std::alloc::Global;

impl Apps {
    /// Records an operation that fits, before which so many others were applied. `NoMemory` leaves the records as
    /// they were.
    pub fn record(&mut self, alloc: Global, op: &Op, applied: u64) -> Result<(), NoMemory>
        requires { FitsApps self.old op.now }
        ensures ok { OnOk result (self.new ≡ apps_recorded self.old applied op.now) }
        ensures err { OnErr result (self.new ≡ self.old) }
    {
        match op {
            Op::Epoch { .. } => Ok(()),
            Op::App { id, submission } => self.add(AppRecord {
                id: *id,
                submission: submission.copy()?,
                attempts: Items::new(alloc),
                ending: None,
                end_order: 0,
            }),
            Op::Attempt { id, master, node } => self.add_attempt(AttemptRecord {
                id: *id,
                master: *master,
                node: node.copy()?,
                ending: None,
            }),
            Op::AttemptEnd { id, how, text } => self.end_attempt(*id, *how, text),
            Op::AppEnd { id, how, text } => {
                let text = text.copy()?;
                self.set_ending(*id, *how, text, applied);
                Ok(())
            }
            Op::Remove { id } => {
                self.remove(*id);
                Ok(())
            }
        }
    }
}
