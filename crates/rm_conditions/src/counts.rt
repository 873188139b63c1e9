//! Counts that are to stay in their ranges.
ghost use Rattle.std.specs.Prelude.{◌≡◌, ◌↔◌, ◌+◌, ◌<◌, ◌^◌, IsTrue, length};
ghost use Rattle.rm_types.specs.declared.ids.AppId.{AppId as App};
ghost use Rattle.rm_model.specs.Facts.{attempts_in};
ghost use Rattle.rm_tree.specs.Numbers.{AreApart};
ghost use Rattle.rm_tables.specs.Actions.{found_in};
ghost use Rattle.rm_sched.specs.CanWork.{AreFew};
ghost use Rattle.rm_conditions.specs.Counts.{HaveFewer};

use rm_tables::Tables;
use rm_tree::Tree;

/// Whether each recorded application has fewer attempts than this.
fn have_fewer(tree: &Tree, bound: usize) -> bool
    ensures each { IsTrue result ↔ HaveFewer bound tree.now.apps }
    ensures apart { AreApart tree.now.apps }
{
    'records: for place in 0..tree.len() {
        if tree.at(place).attempts.len() >= bound {
            return false;
        }
    }
    true
}

/// Whether the number of the next attempt of each recorded application is in range: what a pass of `rm_sched::front` requires of
/// the records.
pub fn are_few(t: &Tables) -> bool
    ensures { IsTrue result ↔ AreFew t.now }
{
    have_fewer(&t.tree, u32::MAX as usize)
}

/// Whether the number of the next attempt of each application is in range, by the application.
fn has_few(t: &Tables) -> bool
    ensures { IsTrue result ↔ ((id : App) → length (attempts_in (found_in t.now id)) + 1 < 2 ^ 32) }
{
    have_fewer(&t.tree, u32::MAX as usize)
}

/// Whether the number of attempts of each application is in range.
fn has_countable(t: &Tables) -> bool
    ensures { IsTrue result ↔ ((id : App) → length (attempts_in (found_in t.now id)) < 2 ^ 32) }
{
    have_fewer(&t.tree, 1 << 32)
}

/// Whether one more id can be given, and one more application counted.
fn can_count_more(t: &Tables) -> bool
    ensures { IsTrue result ↔ ((t.now.given + 1 < 2 ^ 32) × (t.now.going + 1 < 2 ^ 64)) }
{
    t.given < u32::MAX && t.going < usize::MAX
}

/// Whether `rm_dispatch::front` may be called: the next epoch is in range, and the number of the next attempt of each application.
pub fn can_decide(t: &Tables) -> bool
    ensures { IsTrue result ↔ ((t.now.epoch + 1 < 2 ^ 32) × ((id : App) → length (attempts_in (found_in t.now id)) + 1 < 2 ^ 32)) }
{
    let few = has_few(t);
    few && t.epoch < u32::MAX
}

/// Whether `rm_client::serve` may be called with the queues of the tables' settings: one more id can be given and one more
/// application counted, and the number of attempts of each application is in range.
pub fn can_serve_client(t: &Tables) -> bool
    ensures { IsTrue result ↔ ((t.now.given + 1 < 2 ^ 32) × (t.now.going + 1 < 2 ^ 64) × ((id : App) → length (attempts_in (found_in t.now id)) < 2 ^ 32)) }
{
    let few = has_countable(t);
    few && can_count_more(t)
}
