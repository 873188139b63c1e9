ghost use Rattle.std.specs.Prelude.{◌≡◌, ◌++◌, codes, decimal, take, OnOk, OnErr};
ghost use Rattle.rm_formats.specs.IdTexts.{padded, app_text, attempt_text, container_text, container_end};
ghost use Rattle.rm_formats.specs.ids.Fronts.{IsPrefixOf};

use itoa::Buffer;
use rm_types::{AppId, AttemptId, ContainerId, NoMemory};

// A text is written at the end of the bytes piece by piece. Where memory fails half way, what was written of
// it is taken back.

/// Appends the text of an application's id. `NoMemory` leaves the bytes as they were.
pub fn write_app(id: AppId, out: &mut Vec<u8>) -> Result<(), NoMemory>
    ensures ok { OnOk result (out.new.items ≡ out.old.items ++ app_text id) }
    ensures err { OnErr result (out.new.items ≡ out.old.items) }
{
    let before = out.len();
    let written = put_app(out, b"application_", id);
    whole_or_none(out, before, written)
}

/// Appends the text of an attempt's id. `NoMemory` leaves the bytes as they were.
pub fn write_attempt(id: AttemptId, out: &mut Vec<u8>) -> Result<(), NoMemory>
    ensures ok { OnOk result (out.new.items ≡ out.old.items ++ attempt_text id) }
    ensures err { OnErr result (out.new.items ≡ out.old.items) }
{
    let before = out.len();
    let written = put_attempt(out, id);
    whole_or_none(out, before, written)
}

/// Appends the text of a container's id: epoch 0 isn't shown. `NoMemory` leaves the bytes as they were.
pub fn write_container(id: ContainerId, out: &mut Vec<u8>) -> Result<(), NoMemory>
    ensures ok { OnOk result (out.new.items ≡ out.old.items ++ container_text id) }
    ensures err { OnErr result (out.new.items ≡ out.old.items) }
{
    let before = out.len();
    let written = put_container(out, id);
    whole_or_none(out, before, written)
}

/// Hands on whether a text was written; where it wasn't, what stands behind the first so many bytes goes.
fn whole_or_none(
    out: &mut Vec<u8>,
    before: usize,
    written: Result<(), NoMemory>,
) -> Result<(), NoMemory>
    ensures result { result ≡ written }
    ensures ok { OnOk result (out.new.items ≡ out.old.items) }
    ensures err { OnErr result (out.new.items ≡ take before out.old.items) }
{
    if written.is_err() {
        out.truncate(before);
    }
    written
}

fn put_attempt(text: &mut Vec<u8>, id: AttemptId) -> Result<(), NoMemory>
    ensures ok { OnOk result (text.new.items ≡ text.old.items ++ attempt_text id) }
    ensures err { OnErr result (IsPrefixOf text.old.items text.new.items) }
{
    put_app(text, b"appattempt_", id.app)?;
    put_field(text, 6, u64::from(id.number))?;
    Ok(())
}

fn put_container(text: &mut Vec<u8>, id: ContainerId) -> Result<(), NoMemory>
    ensures ok { OnOk result (text.new.items ≡ text.old.items ++ container_text id) }
    ensures err { OnErr result (IsPrefixOf text.old.items text.new.items) }
{
    if id.epoch == 0 {
        return put_container_end(text, b"container_", id);
    }
    text.extend_from_slice(b"container_e")?;
    put_padded(text, 2, u64::from(id.epoch))?;
    put_container_end(text, b"_", id)
}

/// Appends a word, and what stands in a container's text behind the epoch.
fn put_container_end(text: &mut Vec<u8>, word: &[u8], id: ContainerId) -> Result<(), NoMemory>
    ensures ok { OnOk result (text.new.items ≡ text.old.items ++ (word.now ++ container_end id)) }
    ensures err { OnErr result (IsPrefixOf text.old.items text.new.items) }
{
    put_app(text, word, id.attempt.app)?;
    put_field(text, 2, u64::from(id.attempt.number))?;
    put_field(text, 6, id.seq)
}

/// Appends a word, and an application's stamp and number.
fn put_app(text: &mut Vec<u8>, word: &[u8], id: AppId) -> Result<(), NoMemory>
    ensures ok { OnOk result (text.new.items ≡ text.old.items ++ (word.now ++ (decimal id.stamp ++ (codes "_" ++ padded 4 id.number)))) }
    ensures err { OnErr result (IsPrefixOf text.old.items text.new.items) }
{
    text.extend_from_slice(word)?;
    let mut buffer = Buffer::new();
    text.extend_from_slice(buffer.format(id.stamp).as_bytes())?;
    put_field(text, 4, u64::from(id.number))
}

/// Appends a `_` and a number.
fn put_field(text: &mut Vec<u8>, digits: usize, number: u64) -> Result<(), NoMemory>
    ensures ok { OnOk result (text.new.items ≡ text.old.items ++ (codes "_" ++ padded digits number)) }
    ensures err { OnErr result (IsPrefixOf text.old.items text.new.items) }
{
    text.push(b'_')?;
    put_padded(text, digits, number)
}

/// Appends a number in decimal, with zeros before it up to so many digits.
fn put_padded(text: &mut Vec<u8>, digits: usize, number: u64) -> Result<(), NoMemory>
    ensures ok { OnOk result (text.new.items ≡ text.old.items ++ padded digits number) }
    ensures err { OnErr result (IsPrefixOf text.old.items text.new.items) }
{
    let mut buffer = Buffer::new();
    let numeral = buffer.format(number).as_bytes();
    let zeros = digits.saturating_sub(numeral.len());
    'zeros: for _zero in 0..zeros {
        text.push(b'0')?;
    }
    text.extend_from_slice(numeral)?;
    Ok(())
}
