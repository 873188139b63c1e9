ghost use Rattle.std.specs.Prelude.{◌≡◌, [], OnOk, OnErr, IfOk, length, map, nat_lt, not, option_map, if◌then◌else◌};
ghost use Rattle.std.specs.List.{list_any};
ghost use Rattle.std.specs.Option.{option_copied};
ghost use Rattle.rm_types.specs.Passes.{by_priority};
ghost use Rattle.rm_book.specs.AskTables.{AskNow, attempt_asks, asks_set, asks_granted, table_granted, is_for, some_asks, with_asks_of, without_asks_of, waiting_in, AttemptsAscend};
ghost use Rattle.rm_book.specs.ManyAsks.{all_asked, asks_after};

use crate::attempts::Attempts;
use crate::many::lines_after;
use rm_types::{Ask, AskLine, AttemptId, Items, NoMemory, Resource};
use std::alloc::Global;
use std::marker::Model;

/// What attempts ask for and haven't been granted. Contracts see the asks of each attempt in the order of
/// first asking.
#[derive(Drop)]
pub struct Asks {
    attempts: Attempts,
    asked: u64,
}

impl Model for Asks {
    ghost use Rattle.std.specs.Prelude.{List, map};
    ghost use Rattle.rm_book.specs.AskLines.{IsAskTable, asks_of_entry};
    ghost use Rattle.rm_book.specs.AskTables.{AsksOf};

    ghost Value = { List AsksOf };

    ghost view = { λ a. map asks_of_entry a.attempts };

    ghost invariant = { λ a. IsAskTable a.asked a.attempts };
}

impl Asks {
    /// No attempt asks for anything. It takes no memory.
    pub fn new(alloc: Global) -> Asks
        ensures { result ≡ [] }
    {
        Asks {
            attempts: Attempts::new(alloc),
            asked: 0,
        }
    }

    /// Sets the number outstanding of a priority and size; 0 takes the ask away. A new ask stands last in its
    /// priority. `NoMemory`, which also comes where no number is left to order asks by, changes nothing.
    pub fn set(&mut self, attempt: AttemptId, ask: Ask) -> Result<(), NoMemory>
        ensures ok { OnOk result (AskNow self.old self.new attempt (asks_set ask (attempt_asks self.old attempt))) }
        ensures table { OnOk result (self.new ≡ with_asks_of attempt (asks_set ask (attempt_asks self.old attempt)) self.old) }
        ensures err { OnErr result (self.new ≡ self.old) }
    {
        let Some(order) = self.asked.checked_add(1) else {
            return Err(NoMemory);
        };
        self.attempts.set(attempt, ask, order)?;
        self.asked = order;
        Ok(())
    }

    /// Sets each of these asks of an attempt, one after the other, unless it would ask for more than so many different ones
    /// then: `false` comes exactly there. Then nothing changes, and neither at `NoMemory`, which also comes where no numbers
    /// are left to order asks by.
    pub fn set_all(
        &mut self,
        attempt: AttemptId,
        asks: &[Ask],
        most: usize,
    ) -> Result<bool, NoMemory>
        ensures few { IfOk result (λ set. set ≡ not (nat_lt most (length (asks_after (attempt_asks self.old attempt) asks.now)))) }
        ensures ok { IfOk result (λ set. self.new ≡ (if set then all_asked attempt self.old asks.now else self.old)) }
        ensures err { OnErr result (self.new ≡ self.old) }
    {
        let lines = self.attempts.lines_of(attempt);
        if asks.is_empty() {
            return Ok(lines.len() <= most);
        }
        let Some(asked) = self.asked.checked_add(asks.len() as u64) else {
            return Err(NoMemory);
        };
        let after = lines_after(self.attempts.allocator(), lines, asks, self.asked)?;
        if after.len() > most {
            return Ok(false);
        }
        self.attempts.put(attempt, Items::from_vec(after))?;
        self.asked = asked;
        Ok(true)
    }

    /// Lines of what an attempt asks for, by priority and then as first asked. `None` comes exactly where it
    /// asks for nothing.
    pub fn of(&self, attempt: AttemptId) -> Option<&Items<AskLine>>
        ensures { option_map (map (λ line. line.ask)) (option_copied result) ≡ some_asks (by_priority (attempt_asks self.now attempt)) }
    {
        let lines = self.attempts.of(attempt)?;
        if lines.is_empty() { None } else { Some(lines) }
    }

    /// The attempts that ask for something, ascending. They are found without a walk over the others.
    pub fn waiting(&self) -> Result<Items<AttemptId>, NoMemory>
        ensures { IfOk result (λ ids. AttemptsAscend (waiting_in self.now) ids) }
    {
        self.attempts.waiting()
    }

    /// Takes all asks of an attempt away.
    pub fn clear(&mut self, attempt: AttemptId)
        ensures asks { AskNow self.old self.new attempt [] }
        ensures table { self.new ≡ without_asks_of attempt self.old }
    {
        self.attempts.clear(attempt);
    }

    /// One of an ask was granted: its number outstanding falls by one, and at 0 it goes. `false` comes exactly
    /// where the attempt has no ask of this priority and size. It takes no memory.
    pub fn granted(&mut self, attempt: AttemptId, priority: u32, size: Resource) -> bool
        ensures found { result ≡ list_any (is_for priority size) (attempt_asks self.old attempt) }
        ensures asks { AskNow self.old self.new attempt (asks_granted priority size (attempt_asks self.old attempt)) }
        ensures table { self.new ≡ table_granted attempt priority size self.old }
    {
        self.attempts.grant(attempt, priority, size)
    }
}
