//! A master registers.
ghost use Rattle.std.specs.Prelude.{◌≡◌, ◌&&◌, not, IfOk, OnErr};
ghost use Rattle.rm_types.specs.declared.messages.MasterAsk.{MasterAsk as Ask};
ghost use Rattle.rm_master.specs.Answers.{after_master, handed_by, handed_over, ids_granted, registered};
ghost use Rattle.rm_master.specs.Told.{is_left_row, kept_told, living_row, master_register_told, registered_told};
ghost use Rattle.rm_tables.specs.Rows.{row_of};

use crate::living::living;
use rm_book::Book;
use rm_tables::{Tables, Talk, is_earlier, is_masters, keeps};
use rm_types::{AttemptId, BookRow, Boxed, Duplicate, Grant, Items, NoMemory, Reply};

/// Whether a row is of an earlier attempt of the same application, and no master's.
fn is_left(t: &Tables, attempt: AttemptId, row: &BookRow) -> bool
    ensures { result ≡ is_left_row t.now attempt row.now }
{
    is_earlier(row.id.attempt, attempt) && !is_masters(&t.tree, row.id)
}

/// What a master has from earlier attempts.
fn kept(t: &Tables, attempt: AttemptId) -> Result<Items<Grant>, NoMemory>
    ensures { IfOk result (λ kept. kept ≡ kept_told t.now attempt) }
{
    t.book.grants_where(
        attempt.app,
        |row: &BookRow| -> bool
            ensures { result ≡ is_left_row t.entry.now attempt row.now }
        { is_left(t, attempt, row) },
    )
}

/// What a registration is answered that isn't refused.
fn answer(t: &Tables, attempt: AttemptId) -> Result<Reply, NoMemory>
    ensures { IfOk result (λ reply. reply ≡ registered_told t.now attempt) }
{
    if !keeps(&t.tree, attempt.app) {
        return Ok(Reply::MasterRegistered);
    }
    let kept = kept(t, attempt)?;
    Ok(Reply::Took { kept })
}

/// These containers are handed over to a master.
fn hand_over_all(book: &mut Book, grants: &[Grant])
    ensures { book.new ≡ handed_over (ids_granted grants.now) book.old }
{
    'grants: for grant in grants {
        book.hand_over(grant.id);
    }
}

/// What a reply tells a master that it has is handed over to it.
fn hand_over_told(book: &mut Book, reply: &Reply)
    ensures { book.new ≡ handed_by reply.now book.old }
{
    if let Reply::Took { kept } = reply {
        hand_over_all(book, kept.as_slice());
    }
}

/// A registration is taken, which is answered so. `NoMemory` changes nothing.
fn take(t: &mut Tables, attempt: AttemptId, reply: Reply) -> Result<Reply, NoMemory>
    ensures reply { IfOk result (λ told. told ≡ reply) }
    ensures changed { IfOk result (λ told. t.new ≡ registered attempt reply t.old) }
    ensures err { OnErr result (t.new ≡ t.old) }
{
    let kept = reply.copy()?;
    let kept = Boxed::new(t.alloc, kept)?;
    let talk = Talk::Register {
        reply: kept,
        told: t.book.added(),
    };
    hand_over_told(&mut t.book, &reply);
    t.rows.talk(attempt.app, talk);
    Ok(reply)
}

/// A registration is answered; the first one of an attempt that lives is taken.
pub fn register(t: &mut Tables, attempt: AttemptId) -> Result<Reply, NoMemory>
    ensures reply { IfOk result (λ reply. reply ≡ master_register_told t.old attempt (living_row attempt (row_of t.old.rows attempt.app))) }
    ensures changed { IfOk result (λ reply. t.new ≡ after_master attempt Ask.Register reply t.old) }
    ensures err { OnErr result (t.new ≡ t.old) }
{
    let Some(row) = living(&t.rows, attempt) else {
        return Ok(Reply::Gone);
    };
    if row.dialogue.is_some() {
        return Ok(Reply::Already);
    }
    let reply = answer(t, attempt)?;
    take(t, attempt, reply)
}
