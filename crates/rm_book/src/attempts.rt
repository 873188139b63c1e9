//! The lines of attempts' asks, found by attempt, and the attempts that have some.
ghost use Rattle.std.specs.Prelude.{◌≡◌, ◌<◌, [], false, filter, map, not, unwrap_or, is_some, None, IfOk, OnOk, OnErr, if◌then◌else◌};
ghost use Rattle.std.specs.List.{list_any};
ghost use Rattle.std.specs.Map.{lookup};
ghost use Rattle.std.specs.Option.{option_copied};
ghost use Rattle.indexmap.specs.IndexMap.{insert_entry};
ghost use Rattle.indexmap.specs.IndexSet.{contains, spare, IsUnique};
ghost use Rattle.rm_types.specs.Ids.{is_attempt};
ghost use Rattle.rm_types.specs.Lists.{is_nil};
ghost use Rattle.rm_book.specs.AskEntries.{has_some, lines_at};
ghost use Rattle.rm_book.specs.AskLines.{is_line_for, lines_in, lines_granted, lines_set, with_lines};
ghost use Rattle.rm_book.specs.AskTables.{AttemptsAscend};

use crate::lines::{grant_line, has_line, set_line};
use indexmap::IndexSet;
use rm_keyed::Keyed;
use rm_types::{Ask, AskLine, AttemptId, Items, NoMemory, Resource};
use std::alloc::Global;
use std::marker::Model;
use std::mem;

/// The lines of attempts' asks, each attempt's found, changed and taken away without a walk, and the attempts that have some, found
/// without a walk over the others. Contracts see the lines in the order of entering.
#[derive(Drop)]
pub struct Attempts {
    lines: Keyed<AttemptId, Items<AskLine>>,
    waiting: IndexSet<AttemptId>,
}

impl Model for Attempts {
    ghost use Rattle.std.specs.Prelude.{List};
    ghost use Rattle.rm_book.specs.AskLines.{AttemptAsks};

    ghost Value = { List AttemptAsks };

    ghost use Rattle.rm_book.specs.AskEntries.{AreKept, entries_in};

    ghost view = { λ a. entries_in a.lines };

    ghost invariant = { λ a. AreKept a.lines a.waiting.keys };
}

impl Attempts {
    /// No attempt has lines. It takes no memory.
    pub fn new(alloc: Global) -> Attempts
        ensures { result ≡ [] }
    {
        Attempts {
            lines: Keyed::new(alloc),
            waiting: IndexSet::new(alloc),
        }
    }

    /// The lines of an attempt. `None` comes only where it has none.
    pub fn of(&self, attempt: AttemptId) -> Option<&Items<AskLine>>
        ensures { unwrap_or (option_copied result) [] ≡ lines_in self.now attempt }
    {
        self.lines.get(&attempt)
    }

    /// The lines of an attempt; none where it has none.
    pub fn lines_of(&self, attempt: AttemptId) -> &[AskLine]
        ensures { result.now ≡ lines_in self.now attempt }
    {
        match self.of(attempt) {
            Some(lines) => lines.as_slice(),
            None => &[],
        }
    }

    /// The attempts that have a line, ascending. An attempt that has none costs nothing.
    pub fn waiting(&self) -> Result<Items<AttemptId>, NoMemory>
        ensures { IfOk result (λ ids. AttemptsAscend (map (λ entry. entry.attempt) (filter (λ entry. not (is_nil entry.lines)) self.now)) ids) }
    {
        let mut ids = ids_of(self.allocator(), &self.waiting)?;
        ids.sort_unstable();
        Ok(Items::from_vec(ids))
    }

    /// What lines of attempts take their memory from.
    pub fn allocator(&self) -> Global {
        self.lines.allocator()
    }

    /// Sets an ask of an attempt; a new one gets this order. `NoMemory` changes nothing.
    pub fn set(&mut self, attempt: AttemptId, ask: Ask, order: u64) -> Result<(), NoMemory>
        ensures ok { OnOk result (self.new ≡ with_lines attempt (lines_set ask order (lines_in self.old attempt)) self.old) }
        ensures err { OnErr result (self.new ≡ self.old) }
    {
        self.waiting.reserve(1)?;
        set_of(&mut self.lines, attempt, ask, order)?;
        mark(&mut self.waiting, &self.lines, attempt);
        Ok(())
    }

    /// Puts these lines in the place of an attempt's. `NoMemory` changes nothing.
    pub fn put(&mut self, attempt: AttemptId, lines: Items<AskLine>) -> Result<(), NoMemory>
        ensures ok { OnOk result (self.new ≡ with_lines attempt lines self.old) }
        ensures err { OnErr result (self.new ≡ self.old) }
    {
        self.waiting.reserve(1)?;
        put_of(&mut self.lines, attempt, lines)?;
        mark(&mut self.waiting, &self.lines, attempt);
        Ok(())
    }

    /// Takes one from the number outstanding of an attempt's ask, and says whether it has such an ask.
    pub fn grant(&mut self, attempt: AttemptId, priority: u32, size: Resource) -> bool
        ensures found { result ≡ list_any (is_line_for priority size) (lines_in self.old attempt) }
        ensures entries { self.new ≡ (if list_any (λ entry. is_attempt entry.attempt attempt) self.old then with_lines attempt (lines_granted priority size (lines_in self.old attempt)) self.old else self.old) }
    {
        let found = grant_of(&mut self.lines, attempt, priority, size);
        if !waits(&self.lines, attempt) {
            self.waiting.swap_remove(&attempt);
        }
        found
    }

    /// Takes all lines of an attempt away.
    pub fn clear(&mut self, attempt: AttemptId)
        ensures { self.new ≡ filter (λ entry. not (is_attempt entry.attempt attempt)) self.old }
    {
        self.lines.remove(&attempt);
        self.waiting.swap_remove(&attempt);
    }
}

/// The attempts of a set.
fn ids_of(alloc: Global, waiting: &IndexSet<AttemptId>) -> Result<Vec<AttemptId>, NoMemory>
    ensures ids { IfOk result (λ ids. ids.items ≡ waiting.now.keys) }
    ensures unique { IsUnique is_attempt waiting.now }
{
    Ok(waiting.iter().copied().collect(alloc)?)
}

/// Whether an attempt has a line.
fn waits(lines: &Keyed<AttemptId, Items<AskLine>>, attempt: AttemptId) -> bool
    ensures { result ≡ has_some (lookup (is_attempt attempt) lines.now) }
{
    match lines.get(&attempt) {
        Some(own) => !own.is_empty(),
        None => false,
    }
}

/// An attempt is among those that wait where it has a line, and otherwise not. There is room for one more.
fn mark(
    waiting: &mut IndexSet<AttemptId>,
    lines: &Keyed<AttemptId, Items<AskLine>>,
    attempt: AttemptId,
)
    requires { 0 < spare waiting.old }
    ensures { (one : AttemptId) → contains is_attempt waiting.new one ≡ (if is_attempt attempt one then has_some (lookup (is_attempt attempt) lines.now) else contains is_attempt waiting.old one) }
{
    if waits(lines, attempt) {
        waiting.insert(attempt).unwrap();
    } else {
        waiting.swap_remove(&attempt);
    }
}

/// Sets an ask of an attempt; a new one gets this order. `NoMemory` changes nothing.
fn set_of(
    lines: &mut Keyed<AttemptId, Items<AskLine>>,
    attempt: AttemptId,
    ask: Ask,
    order: u64,
) -> Result<(), NoMemory>
    ensures ok { OnOk result (lines.new ≡ insert_entry is_attempt lines.old attempt (lines_set ask order (lines_at lines.old attempt))) }
    ensures err { OnErr result (lines.new ≡ lines.old) }
{
    let alloc = lines.allocator();
    let set = lines.update(
        &attempt,
        |own: &mut Items<AskLine>| -> Result<(), NoMemory>
            ensures { OnOk result (own.new ≡ lines_set ask order own.old) × OnErr result (own.new ≡ own.old) }
        { set_in(own, alloc, ask, order) },
    );
    match set {
        Some(set) => set,
        None => enter(lines, alloc, attempt, ask, order),
    }
}

/// An attempt that has no lines enters with an ask. `NoMemory` changes nothing.
fn enter(
    lines: &mut Keyed<AttemptId, Items<AskLine>>,
    alloc: Global,
    attempt: AttemptId,
    ask: Ask,
    order: u64,
) -> Result<(), NoMemory>
    requires { lookup (is_attempt attempt) lines.old ≡ None }
    ensures ok { OnOk result (lines.new ≡ insert_entry is_attempt lines.old attempt (lines_set ask order [])) }
    ensures err { OnErr result (lines.new ≡ lines.old) }
{
    let mut own = Vec::new(alloc);
    set_line(&mut own, ask, order)?;
    lines.insert(attempt, Items::from_vec(own))
}

/// Puts these lines in the place of an attempt's. `NoMemory` changes nothing.
fn put_of(
    lines: &mut Keyed<AttemptId, Items<AskLine>>,
    attempt: AttemptId,
    own: Items<AskLine>,
) -> Result<(), NoMemory>
    ensures ok { OnOk result (lines.new ≡ insert_entry is_attempt lines.old attempt own) }
    ensures err { OnErr result (lines.new ≡ lines.old) }
{
    if lines.get(&attempt).is_none() {
        return lines.insert(attempt, own);
    }
    lines.update(
        &attempt,
        |former: &mut Items<AskLine>| -> ()
            ensures { former.new ≡ own }
        {
            *former = own;
        },
    );
    Ok(())
}

/// Takes one from the number outstanding of an attempt's ask, and says whether it has such an ask.
fn grant_of(
    lines: &mut Keyed<AttemptId, Items<AskLine>>,
    attempt: AttemptId,
    priority: u32,
    size: Resource,
) -> bool
    ensures found { result ≡ list_any (is_line_for priority size) (lines_at lines.old attempt) }
    ensures lines { lines.new ≡ (if is_some (lookup (is_attempt attempt) lines.old) then insert_entry is_attempt lines.old attempt (lines_granted priority size (lines_at lines.old attempt)) else lines.old) }
{
    let alloc = lines.allocator();
    let found = lines.update(
        &attempt,
        |own: &mut Items<AskLine>| -> bool
            ensures { (result ≡ list_any (is_line_for priority size) own.old) × (own.new ≡ lines_granted priority size own.old) }
        { grant_in(own, alloc, priority, size) },
    );
    found.unwrap_or(false)
}

/// Sets an ask among the lines of an attempt; a new one gets this order. `NoMemory` changes nothing.
fn set_in(own: &mut Items<AskLine>, alloc: Global, ask: Ask, order: u64) -> Result<(), NoMemory>
    ensures ok { OnOk result (own.new ≡ lines_set ask order own.old) }
    ensures err { OnErr result (own.new ≡ own.old) }
{
    let mut lines = mem::replace(own, Items::new(alloc)).into_vec();
    let set = set_line(&mut lines, ask, order);
    *own = Items::from_vec(lines);
    set
}

/// Takes one from the number outstanding of an ask among the lines of an attempt, and says whether there is such an ask.
fn grant_in(own: &mut Items<AskLine>, alloc: Global, priority: u32, size: Resource) -> bool
    ensures found { result ≡ list_any (is_line_for priority size) own.old }
    ensures lines { own.new ≡ lines_granted priority size own.old }
{
    let mut lines = mem::replace(own, Items::new(alloc)).into_vec();
    let found = has_line(&lines, priority, size);
    grant_line(&mut lines, priority, size);
    *own = Items::from_vec(lines);
    found
}
