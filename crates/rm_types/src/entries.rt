use crate::boxed::Boxed;
use crate::containers::{Cause, Grant, Held};
use crate::ids::{AppId, AttemptId, ContainerId};
use crate::items::Items;
use crate::messages::{Lane, Message, Sender};
use crate::operations::Op;
use crate::replies::Reply;
use crate::texts::Text;

/// One entry of the manager's log: what one move did. What may be large stands behind a pointer, so that an
/// entry takes 32 bytes and a log of mostly silent ones stays small.
#[derive(Drop)]
pub enum Entry {
    /// A life began: how many awaiting operations of the life before had landed in the store, and this
    /// life's epoch and stamp.
    Opened {
        landed: u32,
        epoch: u32,
        stamp: u64,
    },
    /// An operation was issued, and awaits.
    Issued {
        op: Boxed<Op>,
    },
    /// The first awaiting operation was handed to the store.
    Handed,
    /// The handed operation is kept.
    Kept {
        op: Boxed<Op>,
    },
    /// The store refused the handed operation after so many calls; nothing more is kept in this life.
    Blown {
        passed: u32,
    },
    /// A message was answered.
    Served {
        sender: Sender,
        message: Boxed<Message>,
        reply: Boxed<Reply>,
    },
    /// An application was accepted.
    Accepted {
        app: AppId,
    },
    /// An attempt was queued: it asks for its master's container.
    Queued {
        attempt: AttemptId,
    },
    /// A registration was absorbed: the reported containers that were taken, and those that stood on the
    /// node and weren't.
    Absorbed {
        node: Boxed<Text>,
        taken: Boxed<Items<Held>>,
        ended: Boxed<Items<ContainerId>>,
    },
    /// A beat was answered with grants.
    Pass {
        node: Boxed<Text>,
        grants: Boxed<Items<Grant>>,
    },
    /// A master's container was ordered on its node.
    Ordered {
        container: Boxed<ContainerId>,
        node: Boxed<Text>,
    },
    /// Containers ended, all for one cause.
    Ended {
        cause: Cause,
        list: Items<ContainerId>,
    },
    /// A segment of the script was settled.
    Settled,
    /// A life crashed.
    Down,
    /// An event of a dispatcher had nothing to do.
    Quiet {
        lane: Lane,
    },
}
