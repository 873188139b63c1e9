ghost use Rattle.std.specs.Prelude.{◌≡◌, IfOk, false};
ghost use Rattle.serde_json.specs.Find.{as_bool};
ghost use Rattle.serde_json.specs.View.{view};
ghost use Rattle.rm_cluster.specs.Readings.{at_key, number_within, text_of, string_of};

use rm_types::{NoMemory, Text, TextError, TextKind};
use serde_json::Value;
use std::alloc::Global;

/// The whole number at a key, which is to be from `least` to `greatest`; `absent` where there is no such key.
pub(crate) fn number_at(
    file: &Value,
    key: &str,
    least: u32,
    greatest: u32,
    absent: u32,
) -> Option<u32>
    ensures { result ≡ at_key key.now (number_within least greatest) absent (view file.now) }
{
    match file.get(key) {
        Some(value) => number_within(value, least, greatest),
        None => Some(absent),
    }
}

/// What is true or false at a key; false where there is no such key.
pub(crate) fn flag_at(file: &Value, key: &str) -> Option<bool>
    ensures { result ≡ at_key key.now as_bool false (view file.now) }
{
    match file.get(key) {
        Some(value) => value.as_bool(),
        None => Some(false),
    }
}

#[tactic(auto, unfolding(crate::specs::Readings::number_within))]
fn number_within(value: &Value, least: u32, greatest: u32) -> Option<u32>
    ensures { result ≡ number_within least greatest (view value.now) }
{
    let number = value.as_u64()?;
    if number < u64::from(least) || u64::from(greatest) < number {
        return None;
    }
    Some(number as u32)
}

/// The bytes as a text of the kind, where they are one.
#[tactic(auto, unfolding(crate::specs::Readings::text_of))]
pub(crate) fn text_of(alloc: Global, bytes: &[u8], kind: TextKind) -> Result<Option<Text>, NoMemory>
    ensures { IfOk result (λ text. text ≡ text_of kind bytes.now) }
{
    match Text::read(alloc, bytes, kind) {
        Ok(text) => Ok(Some(text)),
        Err(TextError::NotText { place: _ }) => Ok(None),
        Err(TextError::Memory) => Err(NoMemory),
    }
}

/// A string as a text of the kind, where the value is one.
#[tactic(auto, unfolding(crate::specs::Readings::string_of))]
pub(crate) fn string_of(
    alloc: Global,
    value: &Value,
    kind: TextKind,
) -> Result<Option<Text>, NoMemory>
    ensures { IfOk result (λ text. text ≡ string_of kind (view value.now)) }
{
    match value.as_str() {
        Some(string) => text_of(alloc, string.as_bytes(), kind),
        None => Ok(None),
    }
}
