//! What masters are to be told, made ready before any row changes.
ghost use Rattle.std.specs.Prelude.{◌≡◌, [], ◌∷◌, ◌++◌, None, IfOk, IfNone, OnOk};
ghost use Rattle.std.specs.Map.{lookup};
ghost use Rattle.std.specs.Option.{option_to_list};
ghost use Rattle.rm_types.specs.Ids.{is_app};
ghost use Rattle.rm_tables.specs.Leaving.{closed_in, closed_one};
ghost use Rattle.rm_sched.specs.ClosingLists.{has_list, with_closing, with_lists};

use indexmap::IndexMap;
use rm_tables::Rows;
use rm_types::{AppId, ClosingOf, Items, NoMemory};
use std::alloc::Global;
use std::marker::Model;

/// Lists of endings, one for each application, found by its id without a walk.
#[derive(Drop)]
pub struct ClosingLists {
    map: IndexMap<AppId, Items<ClosingOf>>,
}

impl Model for ClosingLists {
    ghost use Rattle.std.specs.Prelude.{List};
    ghost use Rattle.rm_types.specs.declared.containers.ClosingOf.{ClosingOf};
    ghost use Rattle.rm_types.specs.declared.ids.AppId.{AppId};

    ghost Value = { List (AppId × List ClosingOf) };

    ghost view = { λ a. a.map.entries };
}

impl ClosingLists {
    /// No lists. It takes no memory.
    fn new(alloc: Global) -> ClosingLists
        ensures { result ≡ [] }
    {
        ClosingLists {
            map: IndexMap::new(alloc),
        }
    }

    /// One more ending, where there is a list of its application; says whether there is one.
    fn add_ending(&mut self, closing: ClosingOf) -> Result<bool, NoMemory>
        ensures there { IfOk result (λ there. there ≡ has_list closing.attempt.app self.old) }
        ensures ok { OnOk result (self.new ≡ with_closing self.old closing) }
    {
        match self.map.get_mut(&closing.attempt.app) {
            Some(list) => {
                list.push(closing)?;
                Ok(true)
            }
            None => Ok(false),
        }
    }

    /// Adds the list of an application that has none.
    fn add(&mut self, id: AppId, list: Items<ClosingOf>) -> Result<(), NoMemory>
        requires { lookup (is_app id) self.old ≡ None }
        ensures { OnOk result (self.new ≡ self.old ++ (id, list) ∷ []) }
    {
        self.map.insert(id, list)?;
        Ok(())
    }

    /// Takes the last list away.
    fn pop(&mut self) -> Option<(AppId, Items<ClosingOf>)>
        ensures rest { self.old ≡ self.new ++ option_to_list result }
        ensures none { IfNone result (self.old ≡ []) }
    {
        self.map.pop()
    }
}

/// The lists as they are to be, of the applications that these endings are of. No row changes yet.
pub fn closing_lists(
    alloc: Global,
    rows: &Rows,
    closings: &[ClosingOf],
) -> Result<ClosingLists, NoMemory>
    ensures { IfOk result (λ lists. with_lists lists rows.now ≡ closed_in rows.now closings.now) }
{
    let mut lists = ClosingLists::new(alloc);
    'closings: for closing in closings {
        take_ending(rows, &mut lists, *closing)?;
    }
    Ok(lists)
}

/// One more ending, where the life knows its application.
fn take_ending(rows: &Rows, lists: &mut ClosingLists, closing: ClosingOf) -> Result<(), NoMemory>
    ensures { OnOk result (with_lists lists.new rows.now ≡ closed_one (with_lists lists.old rows.now) closing) }
{
    if lists.add_ending(closing)? {
        return Ok(());
    }
    let id = closing.attempt.app;
    let Some(row) = rows.find(id) else {
        return Ok(());
    };
    lists.add(id, row.with_closing(closing)?)
}

/// The lists take the places of the rows' own. It takes no memory.
pub fn set_lists(rows: &mut Rows, mut lists: ClosingLists)
    ensures { rows.new ≡ with_lists lists rows.old }
{
    'lists: while let Some((id, list)) = lists.pop() {
        rows.set_closings(id, list);
    }
}
