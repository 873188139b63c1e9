ghost use Rattle.std.specs.Prelude.{◌≡◌, ℕ, ◌≢◌, ◌↔◌, ◌+◌, ◌<◌, ◌≤◌, ◌^◌, List, [], ◌∷◌, ◌++◌, length, IfOk, OnOk, OnErr, IfErr, IsErrOf, Err, true, false};
ghost use Rattle.rm_types.specs.declared.entries.Entry.{Entry};
ghost use Rattle.rm_types.specs.declared.ids.AppId.{AppId};
ghost use Rattle.rm_types.specs.declared.ids.ContainerId.{ContainerId};
ghost use Rattle.rm_types.specs.declared.messages.Lane.{Lane};
ghost use Rattle.rm_types.specs.declared.operations.Op.{Op as AnyOp};
ghost use Rattle.rm_types.specs.declared.replies.Reply.{Reply as AnyReply};
ghost use Rattle.rm_types.specs.Records.{fits_records, recorded};
ghost use Rattle.rm_types.specs.Limits.{most_served};
ghost use Rattle.rm_model.specs.Facts.{attempts_in};
ghost use Rattle.rm_tables.specs.declared.events.MainEvent.{MainEvent};
ghost use Rattle.rm_tables.specs.declared.events.SchedEvent.{SchedEvent};
ghost use Rattle.rm_tables.specs.Actions.{found_in, main_worked, sched_worked};
ghost use Rattle.rm_tables.specs.KeptOps.{kept};
ghost use Rattle.rm_tables.specs.Lives.{begun, tables_gone_down, handed_out, is_ready_lane, may_go_down, refused};
ghost use Rattle.rm_tables.specs.MainEvents.{main_step};
ghost use Rattle.rm_tables.specs.SchedEvents.{EndsByEvent, sched_step};
ghost use Rattle.rm_sched.specs.CanWork.{AreFew, CanPass};
ghost use Rattle.rm_invariant.specs.messages.Ranges.{IsMessage};
ghost use Rattle.rm_invariant.specs.bounds.InBounds.{InBounds};
ghost use Rattle.rm_core.specs.Queues.{after_answer, landed_in, own_tree, served_moved, tree_landed};
ghost use Rattle.rm_core.specs.Serving.{IsOpenReply, IsReply, IsServed};

use rm_queues::QueueTree;
use rm_tables::{Refused, Tables};
use rm_tree::{Tree, TreeError};
use rm_types::{Boxed, Duplicate, Entry, Items, Lane, Message, NoMemory, Op, Reply};

// Each move takes the room for its entry first, so that the tables and the log change together or not at all.

/// How many of the awaiting operations a tree shows after a life that blew: the first, or none.
pub fn landed_in(t: &Tables, tree: &Tree) -> u32
    ensures { result ≡ landed_in t.now tree.now }
{
    if !t.blown {
        return 0;
    }
    match t.awaiting.first() {
        Some(op) if tree.shows(op) => 1,
        _ => 0,
    }
}

/// A copy of what is recorded, with the first awaiting operation where it landed.
pub fn with_landed(t: &Tables, landed: u32) -> Result<Tree, NoMemory>
    requires one { landed ≤ 1 }
    requires fits { landed ≡ 1 → (op : AnyOp) (rest : List AnyOp) → t.now.awaiting ≡ op ∷ rest → fits_records t.now.tree op ≡ true }
    ensures { IfOk result (λ own. own ≡ tree_landed landed t.now) }
{
    let own = dense_copy(&t.tree)?;
    if landed == 0 {
        return Ok(own);
    }
    match t.awaiting.first() {
        Some(op) => with_op(own, op),
        None => Ok(own),
    }
}

/// A copy in which the record at a place is found without a walk.
fn dense_copy(tree: &Tree) -> Result<Tree, NoMemory>
    ensures { IfOk result (λ copy. copy ≡ tree.now) }
{
    let mut copy = tree.copy()?;
    // What a life removed left gaps.
    copy.close_gaps();
    Ok(copy)
}

/// What is recorded once an operation is kept that fits it.
fn with_op(mut tree: Tree, op: &Op) -> Result<Tree, NoMemory>
    requires { fits_records tree op.now ≡ true }
    ensures { IfOk result (λ after. after ≡ recorded tree op.now) }
{
    match tree.apply(op) {
        Ok(()) => Ok(tree),
        Err(TreeError::Memory) => Err(NoMemory),
        Err(TreeError::Stray) => unreachable!(),
    }
}

/// What a life begins over: the first one over what is handed to it, a later one over what the manager itself has recorded, with
/// what landed.
pub fn own_tree(log: &Items<Entry>, t: &Tables, landed: u32, tree: Tree) -> Result<Tree, NoMemory>
    requires one { landed ≤ 1 }
    requires fits { landed ≡ 1 → (op : AnyOp) (rest : List AnyOp) → t.now.awaiting ≡ op ∷ rest → fits_records t.now.tree op ≡ true }
    requires landed { landed ≡ landed_in t.now tree }
    ensures { IfOk result (λ own. own ≡ own_tree log.now t.now tree) }
{
    if log.is_empty() {
        return Ok(tree);
    }
    with_landed(t, landed)
}

/// A life begins over these records; so many of the operations that awaited are among them.
pub fn begin(
    t: &mut Tables,
    log: &mut Items<Entry>,
    landed: u32,
    tree: Tree,
    stamp: u64,
) -> Result<(), Refused>
    ensures ok { OnOk result ((t.new ≡ begun tree stamp t.old) × (log.new ≡ log.old ++ Entry.Opened landed tree.next_epoch stamp ∷ [])) }
    ensures ready { result ≢ Err Refused.NotReady }
    ensures err { OnErr result ((t.new ≡ t.old) × (log.new ≡ log.old)) }
{
    log.push_made(
        t,
        |t: &mut Tables| -> Result<Entry, Refused>
            ensures ok { IfOk result (λ entry. (entry ≡ Entry.Opened landed tree.next_epoch stamp) × (t.new ≡ begun tree stamp t.old)) }
            ensures err { OnErr result (t.new ≡ t.old) }
            ensures memory { IfErr result (λ error. error ≡ Refused.Memory) }
        {
            let epoch = tree.next_epoch();
            t.begin(tree, stamp)?;
            Ok(Entry::Opened {
                landed,
                epoch,
                stamp,
            })
        },
    )
}

/// The first event of the main queue is worked off.
pub fn main(t: &mut Tables, log: &mut Items<Entry>) -> Result<(), Refused>
    requires epoch { is_ready_lane t.old Lane.Main ≡ true → t.old.epoch + 1 < 2 ^ 32 }
    requires few { is_ready_lane t.old Lane.Main ≡ true → (id : AppId) → length (attempts_in (found_in t.old id)) + 1 < 2 ^ 32 }
    ensures ok { OnOk result ((event : MainEvent) (rest : List MainEvent) → t.old.main ≡ event ∷ rest → (t.new ≡ (main_worked (main_step event t.old)).1) × (log.new ≡ log.old ++ (main_worked (main_step event t.old)).0 ∷ [])) }
    ensures some { OnOk result (t.old.main ≢ []) }
    ensures not_ready { IsErrOf result Refused.NotReady ↔ (is_ready_lane t.old Lane.Main ≡ false) }
    ensures err { OnErr result ((t.new ≡ t.old) × (log.new ≡ log.old)) }
{
    if !t.is_ready(Lane::Main) {
        return Err(Refused::NotReady);
    }
    log.push_made(
        t,
        |t: &mut Tables| -> Result<Entry, Refused>
            requires epoch { t.old.epoch + 1 < 2 ^ 32 }
            requires few { (id : AppId) → length (attempts_in (found_in t.old id)) + 1 < 2 ^ 32 }
            ensures ok { (event : MainEvent) (rest : List MainEvent) → t.old.main ≡ event ∷ rest → IfOk result (λ entry. (entry, t.new) ≡ main_worked (main_step event t.old)) }
            ensures ready { IsErrOf result Refused.NotReady → t.old.main ≡ [] }
            ensures some { t.old.main ≡ [] → result ≡ Err Refused.NotReady }
            ensures err { OnErr result (t.new ≡ t.old) }
        { rm_dispatch::front(t) },
    )
}

/// The first event of the scheduler's queue is worked off.
pub fn sched(t: &mut Tables, log: &mut Items<Entry>) -> Result<(), Refused>
    requires pass { (name : List ℕ) (rest : List SchedEvent) → t.old.sched ≡ SchedEvent.NodeUpdate name ∷ rest → AreFew t.old × CanPass t.old }
    ensures ok { OnOk result ((event : SchedEvent) (rest : List SchedEvent) → t.old.sched ≡ event ∷ rest → (list : List ContainerId) × EndsByEvent event t.old list × (t.new ≡ (sched_worked (sched_step event list t.old)).1) × (log.new ≡ log.old ++ (sched_worked (sched_step event list t.old)).0 ∷ [])) }
    ensures some { OnOk result (t.old.sched ≢ []) }
    ensures not_ready { IsErrOf result Refused.NotReady ↔ (is_ready_lane t.old Lane.Sched ≡ false) }
    ensures err { OnErr result ((t.new ≡ t.old) × (log.new ≡ log.old)) }
{
    if !t.is_ready(Lane::Sched) {
        return Err(Refused::NotReady);
    }
    log.push_made(
        t,
        |t: &mut Tables| -> Result<Entry, Refused>
            requires pass { (name : List ℕ) (rest : List SchedEvent) → t.old.sched ≡ SchedEvent.NodeUpdate name ∷ rest → AreFew t.old × CanPass t.old }
            ensures ok { (event : SchedEvent) (rest : List SchedEvent) → t.old.sched ≡ event ∷ rest → IfOk result (λ entry. (list : List ContainerId) × EndsByEvent event t.old list × ((entry, t.new) ≡ sched_worked (sched_step event list t.old))) }
            ensures ready { IsErrOf result Refused.NotReady → t.old.sched ≡ [] }
            ensures some { t.old.sched ≡ [] → result ≡ Err Refused.NotReady }
            ensures err { OnErr result (t.new ≡ t.old) }
        { rm_sched::front(t) },
    )
}

/// The first awaiting operation is handed to the store.
pub fn hand(t: &mut Tables, log: &mut Items<Entry>) -> Result<(), Refused>
    ensures ok { OnOk result ((t.new ≡ handed_out t.old) × (log.new ≡ log.old ++ Entry.Handed ∷ [])) }
    ensures ready { OnOk result (is_ready_lane t.old Lane.Hand ≡ true) }
    ensures not_ready { IsErrOf result Refused.NotReady ↔ (is_ready_lane t.old Lane.Hand ≡ false) }
    ensures err { OnErr result ((t.new ≡ t.old) × (log.new ≡ log.old)) }
{
    if !t.is_ready(Lane::Hand) {
        return Err(Refused::NotReady);
    }
    log.push(Entry::Handed)?;
    t.hand();
    Ok(())
}

/// The operation that was handed to the store is kept.
pub fn keep(t: &mut Tables, log: &mut Items<Entry>) -> Result<(), Refused>
    requires fits { is_ready_lane t.old Lane.Write ≡ true → (op : AnyOp) (rest : List AnyOp) → t.old.awaiting ≡ op ∷ rest → fits_records t.old.tree op ≡ true }
    requires awaits { is_ready_lane t.old Lane.Write ≡ true → t.old.awaiting ≢ [] }
    ensures ok { OnOk result ((op : AnyOp) (rest : List AnyOp) → t.old.awaiting ≡ op ∷ rest → (t.new ≡ kept op t.old) × (log.new ≡ log.old ++ Entry.Kept op ∷ [])) }
    ensures ready { OnOk result (is_ready_lane t.old Lane.Write ≡ true) }
    ensures not_ready { IsErrOf result Refused.NotReady ↔ (is_ready_lane t.old Lane.Write ≡ false) }
    ensures err { OnErr result ((t.new ≡ t.old) × (log.new ≡ log.old)) }
{
    if !t.is_ready(Lane::Write) {
        return Err(Refused::NotReady);
    }
    log.push_made(
        t,
        |t: &mut Tables| -> Result<Entry, Refused>
            requires fits { (op : AnyOp) (rest : List AnyOp) → t.old.awaiting ≡ op ∷ rest → fits_records t.old.tree op ≡ true }
            ensures ok { (op : AnyOp) (rest : List AnyOp) → t.old.awaiting ≡ op ∷ rest → IfOk result (λ entry. (entry ≡ Entry.Kept op) × (t.new ≡ kept op t.old)) }
            ensures ready { IsErrOf result Refused.NotReady → t.old.awaiting ≡ [] }
            ensures err { OnErr result (t.new ≡ t.old) }
        { t.keep() },
    )
}

/// The store has refused the operation that was handed to it.
pub fn blow(t: &mut Tables, log: &mut Items<Entry>, passed: u32) -> Result<(), Refused>
    ensures ok { OnOk result ((t.new ≡ refused t.old) × (log.new ≡ log.old ++ Entry.Blown passed ∷ [])) }
    ensures ready { OnOk result (is_ready_lane t.old Lane.Write ≡ true) }
    ensures not_ready { IsErrOf result Refused.NotReady ↔ (is_ready_lane t.old Lane.Write ≡ false) }
    ensures err { OnErr result ((t.new ≡ t.old) × (log.new ≡ log.old)) }
{
    if !t.is_ready(Lane::Write) {
        return Err(Refused::NotReady);
    }
    log.push(Entry::Blown { passed })?;
    t.blow();
    Ok(())
}

/// The segment settles: nothing is left to do.
pub fn settle(t: &Tables, log: &mut Items<Entry>) -> Result<(), Refused>
    ensures ok { OnOk result (log.new ≡ log.old ++ Entry.Settled ∷ []) }
    ensures ready { OnOk result (is_ready_lane t.now Lane.End ≡ true) }
    ensures not_ready { IsErrOf result Refused.NotReady ↔ (is_ready_lane t.now Lane.End ≡ false) }
    ensures err { OnErr result (log.new ≡ log.old) }
{
    if !t.is_ready(Lane::End) {
        return Err(Refused::NotReady);
    }
    log.push(Entry::Settled)?;
    Ok(())
}

/// The life goes down.
pub fn go_down(t: &mut Tables, log: &mut Items<Entry>) -> Result<(), Refused>
    ensures ok { OnOk result ((t.new ≡ tables_gone_down t.old) × (log.new ≡ log.old ++ Entry.Down ∷ [])) }
    ensures ready { OnOk result (may_go_down t.old ≡ true) }
    ensures not_ready { IsErrOf result Refused.NotReady ↔ (may_go_down t.old ≡ false) }
    ensures err { OnErr result ((t.new ≡ t.old) × (log.new ≡ log.old)) }
{
    if !t.may_go_down() {
        return Err(Refused::NotReady);
    }
    log.push(Entry::Down)?;
    t.go_down();
    Ok(())
}

/// A message is answered by the service of its sender, and is counted. Before the life is open it is NOTOPEN.
fn answer(queues: &QueueTree, t: &mut Tables, message: &Message) -> Result<Boxed<Reply>, NoMemory>
    requires settings { queues.now ≡ t.old.settings }
    requires message { IsMessage message.now }
    requires few { t.old.served < most_served }
    requires ranged { t.old.is_open ≡ true → InBounds t.old }
    requires attempts { t.old.is_open ≡ true → (id : AppId) → length (attempts_in (found_in t.old id)) < 2 ^ 32 }
    ensures reply { IfOk result (λ reply. IsReply t.old message.now reply) }
    ensures changed { IfOk result (λ reply. t.new ≡ served_moved message.now reply t.old) }
    ensures err { OnErr result (t.new ≡ t.old) }
{
    let served = t.served + 1;
    let mut reply = Boxed::new(t.alloc, Reply::NotOpen)?;
    if t.is_open {
        let answered = open_answer(queues, t, message)?;
        reply.set(answered);
    }
    t.served = served;
    Ok(reply)
}

/// A message of an open life is answered by the service of its sender.
fn open_answer(queues: &QueueTree, t: &mut Tables, message: &Message) -> Result<Reply, NoMemory>
    requires settings { queues.now ≡ t.old.settings }
    requires message { IsMessage message.now }
    requires ranged { InBounds t.old }
    requires attempts { (id : AppId) → length (attempts_in (found_in t.old id)) < 2 ^ 32 }
    ensures reply { IfOk result (λ reply. IsOpenReply t.old message.now reply) }
    ensures changed { IfOk result (λ reply. t.new ≡ after_answer message.now reply t.old) }
    ensures err { OnErr result (t.new ≡ t.old) }
{
    if t.going == usize::MAX {
        return Err(NoMemory);
    }
    Ok(match message {
        Message::Client(user, ask) => rm_client::serve(queues, t, user, ask)?,
        Message::Master(attempt, ask) => rm_master::serve(t, *attempt, ask)?,
        Message::Node(name, ask) => rm_tracker::serve(t, name, ask)?,
        Message::Clock(ask) => rm_tracker::serve_clock(t, ask)?,
    })
}

/// A message is answered.
pub fn answer_message(
    queues: &QueueTree,
    t: &mut Tables,
    log: &mut Items<Entry>,
    message: Message,
) -> Result<(), Refused>
    requires settings { queues.now ≡ t.old.settings }
    requires message { IsMessage message }
    requires few { t.old.served < most_served }
    requires ranged { is_ready_lane t.old Lane.Client ≡ true → t.old.is_open ≡ true → InBounds t.old }
    requires attempts { is_ready_lane t.old Lane.Client ≡ true → t.old.is_open ≡ true → (id : AppId) → length (attempts_in (found_in t.old id)) < 2 ^ 32 }
    ensures ok { OnOk result (IsServed t.old t.new log.old log.new message) }
    ensures ready { OnOk result (is_ready_lane t.old Lane.Client ≡ true) }
    ensures not_ready { IsErrOf result Refused.NotReady ↔ (is_ready_lane t.old Lane.Client ≡ false) }
    ensures err { OnErr result ((t.new ≡ t.old) × (log.new ≡ log.old)) }
{
    // The lanes of all senders are ready alike.
    if !t.is_ready(Lane::Client) {
        return Err(Refused::NotReady);
    }
    let sender = message.sender();
    let message = Boxed::new(t.alloc, message)?;
    log.push_made(
        t,
        |t: &mut Tables| -> Result<Entry, Refused>
            requires settings { queues.now ≡ t.old.settings }
            requires message { IsMessage message }
            requires few { t.old.served < most_served }
            requires ranged { t.old.is_open ≡ true → InBounds t.old }
            requires attempts { t.old.is_open ≡ true → (id : AppId) → length (attempts_in (found_in t.old id)) < 2 ^ 32 }
            ensures ok { IfOk result (λ entry. (reply : AnyReply) × IsReply t.old message reply × (t.new ≡ served_moved message reply t.old) × (entry ≡ Entry.Served sender message reply)) }
            ensures err { OnErr result (t.new ≡ t.old) }
            ensures memory { IfErr result (λ error. error ≡ Refused.Memory) }
        {
            let reply = answer(queues, t, message.get())?;
            Ok(Entry::Served {
                sender,
                message,
                reply,
            })
        },
    )
}
