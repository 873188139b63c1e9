ghost use Rattle.std.specs.Prelude.{◌≡◌, ◌∷◌, ◌++◌, [], List, not, reverse, if◌then◌else◌, IfOk, OnOk};
ghost use Rattle.rm_types.specs.declared.operations.Op.{Op as AnyOp};
ghost use Rattle.rm_types.specs.Folded.{folded, is_gone, stays};
ghost use Rattle.rm_store.specs.compaction.Later.{IsLater};

use indexmap::IndexSet;
use rm_types::{AppId, Duplicate, Items, NoMemory, Op};
use std::alloc::Global;

/// What a list of operations says of those before it.
#[derive(Drop)]
pub struct Later {
    /// Whether an Epoch is among them.
    has_epoch: bool,
    /// The applications that they remove.
    removed: IndexSet<AppId>,
}

impl Later {
    /// No operation comes later. It takes no memory.
    fn new(alloc: Global) -> Later
        ensures { IsLater result [] }
    {
        Later {
            has_epoch: false,
            removed: IndexSet::new(alloc),
        }
    }

    /// Whether an application isn't removed later.
    fn keeps(&self, id: AppId) -> bool
        ensures { (later : List AnyOp) → IsLater self.now later → result ≡ not (is_gone id later) }
    {
        !self.removed.contains(&id)
    }

    /// Whether an operation before these is left.
    fn leaves(&self, op: &Op) -> bool
        ensures { (later : List AnyOp) → IsLater self.now later → result ≡ stays op.now later }
    {
        match op {
            Op::Epoch { .. } => !self.has_epoch,
            Op::App { id, .. } => self.keeps(*id),
            Op::Attempt { id, .. } => self.keeps(id.app),
            Op::AttemptEnd { id, .. } => self.keeps(id.app),
            Op::AppEnd { id, .. } => self.keeps(*id),
            Op::Remove { .. } => false,
        }
    }

    /// An application is removed.
    fn remove(&mut self, id: AppId) -> Result<(), NoMemory>
        ensures { OnOk result ((later : List AnyOp) → IsLater self.old later → IsLater self.new (AnyOp.Remove id ∷ later)) }
    {
        self.removed.insert(id)?;
        Ok(())
    }

    /// One more operation comes before those that come later.
    fn precede(&mut self, op: &Op) -> Result<(), NoMemory>
        ensures { OnOk result ((later : List AnyOp) → IsLater self.old later → IsLater self.new (op.now ∷ later)) }
    {
        match op {
            Op::Epoch { .. } => self.has_epoch = true,
            Op::App { .. } => {}
            Op::Attempt { .. } => {}
            Op::AttemptEnd { .. } => {}
            Op::AppEnd { .. } => {}
            Op::Remove { id } => self.remove(*id)?,
        }
        Ok(())
    }
}

/// An operation is put behind others, where it is left.
fn put(left: &mut Vec<Op>, op: &Op, is_left: bool) -> Result<(), NoMemory>
    ensures { OnOk result (left.new.items ≡ (if is_left then left.old.items ++ op.now ∷ [] else left.old.items)) }
{
    if is_left {
        left.push(op.copy()?)?;
    }
    Ok(())
}

/// An operation is looked at, before those that were: it is left or not.
fn look(later: &mut Later, left: &mut Vec<Op>, op: &Op) -> Result<(), NoMemory>
    ensures { OnOk result ((ops : List AnyOp) → IsLater later.old ops → reverse left.old.items ≡ folded ops → IsLater later.new (op.now ∷ ops) × (reverse left.new.items ≡ folded (op.now ∷ ops))) }
{
    put(left, op, later.leaves(op))?;
    later.precede(op)
}

/// The operations of a list that are left once it is folded, in order. It goes over the list once, from its end, and takes memory for
/// what is left and for which applications are removed. `NoMemory` where none was found.
pub fn fold(alloc: Global, ops: &Items<Op>) -> Result<Items<Op>, NoMemory>
    ensures { IfOk result (λ left. left ≡ folded ops.now) }
{
    let mut later = Later::new(alloc);
    let mut left = Vec::new(alloc);
    let count = ops.len();
    'ops: for done in 0..count {
        look(&mut later, &mut left, ops.at(count - 1 - done))?;
    }
    left.as_mut_slice().reverse();
    Ok(Items::from_vec(left))
}
