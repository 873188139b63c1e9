//! The turns of a pass.
ghost use Rattle.rm_sched.specs.fit.Conditions.{TurnsAreApart};
ghost use Rattle.rm_tables.specs.Passing.{turns_in};

use rm_tables::Tables;

/// No two turns of a pass are of one attempt, in any tables: each application has one record, and at most one turn. So nobody has to
/// test for this part of what a pass requires.
pub fn law_apart(t: &Tables)
    ensures { TurnsAreApart (turns_in t.now) }
{
    // With its length a tree tells that no two records are of one application.
    let _records = t.tree.len();
}
