//! Attempts that live.
ghost use Rattle.std.specs.Prelude.{◌≡◌};
ghost use Rattle.std.specs.Option.{option_copied};
ghost use Rattle.rm_refinement.specs.Services.{lives_with};
ghost use Rattle.rm_master.specs.Told.{goes_on, living_row, spoken_by};
ghost use Rattle.rm_tables.specs.Rows.{row_of};

use rm_tables::{AppRow, Dialogue, Rows};
use rm_types::AttemptId;

/// Whether an attempt is the current one of its application's row, and lives.
fn lives(row: &AppRow, attempt: AttemptId) -> bool
    ensures { result ≡ lives_with attempt row.now.current }
{
    match row.current {
        Some(current) => current.number == attempt.number && current.state.is_alive(),
        None => false,
    }
}

/// The row of an attempt's application. `None` comes exactly where the attempt isn't the current one, or doesn't live.
pub fn living(rows: &Rows, attempt: AttemptId) -> Option<&AppRow>
    ensures { option_copied result ≡ living_row attempt (row_of rows.now attempt.app) }
{
    let row = rows.find(attempt.app)?;
    if lives(row, attempt) { Some(row) } else { None }
}

/// The dialogue with the master of an attempt that lives. `None` comes exactly where it didn't register.
pub fn dialogue(rows: &Rows, attempt: AttemptId) -> Option<&Dialogue>
    ensures { option_copied result ≡ spoken_by attempt (row_of rows.now attempt.app) }
{
    living(rows, attempt)?.dialogue.as_ref()
}

/// Whether the master of an attempt that lives registered and didn't finish.
pub fn goes_on(rows: &Rows, attempt: AttemptId) -> bool
    ensures { result ≡ goes_on (spoken_by attempt (row_of rows.now attempt.app)) }
{
    match dialogue(rows, attempt) {
        Some(one) => one.finishing.is_none(),
        None => false,
    }
}
