ghost use Rattle.std.specs.Prelude.{◌≡◌, IfOk, string_bytes};
ghost use Rattle.serde_json.specs.View.{view, items_view, members_view};
ghost use Rattle.rm_cluster.specs.Readings.{names_of, name_list_of, user_of, users_read, user_groups_of};

use crate::readings::{string_of, text_of};
use rm_types::{Items, NoMemory, Text, TextKind, UserGroups};
use serde_json::{Map, Value};
use std::alloc::Global;

/// The groups of users: an object in which each key is a name and each value a list of names.
#[tactic(auto, unfolding(crate::specs::Readings::user_groups_of))]
pub(crate) fn user_groups_of(
    alloc: Global,
    value: &Value,
) -> Result<Option<Items<UserGroups>>, NoMemory>
    ensures { IfOk result (λ groups. groups ≡ user_groups_of (view value.now)) }
{
    match value.as_object() {
        Some(members) => users_of(alloc, members),
        None => Ok(None),
    }
}

/// A user for each member, in the object's order, where each member is one.
fn users_of(
    alloc: Global,
    members: &Map<String, Value>,
) -> Result<Option<Items<UserGroups>>, NoMemory>
    ensures { IfOk result (λ users. users ≡ users_read (members_view members.now.entries)) }
{
    let mut users = Items::new(alloc);
    for (key, value) in members {
        let Some(user) = user_of(alloc, key, value)? else {
            return Ok(None);
        };
        users.push(user)?;
    }
    Ok(Some(users))
}

/// A user, whose name is the key, and the groups that the value lists.
#[tactic(auto, unfolding(crate::specs::Readings::user_of))]
pub(crate) fn user_of(
    alloc: Global,
    key: &String,
    value: &Value,
) -> Result<Option<UserGroups>, NoMemory>
    ensures { IfOk result (λ user. user ≡ user_of (string_bytes key.now) (view value.now)) }
{
    let Some(user) = text_of(alloc, key.as_bytes(), TextKind::Name)? else {
        return Ok(None);
    };
    let Some(groups) = name_list_of(alloc, value)? else {
        return Ok(None);
    };
    Ok(Some(UserGroups { user, groups }))
}

#[tactic(auto, unfolding(crate::specs::Readings::name_list_of))]
fn name_list_of(alloc: Global, value: &Value) -> Result<Option<Items<Text>>, NoMemory>
    ensures { IfOk result (λ names. names ≡ name_list_of (view value.now)) }
{
    match value.as_array() {
        Some(values) => names_of(alloc, values.as_slice()),
        None => Ok(None),
    }
}

/// The values as names, where each is one.
fn names_of(alloc: Global, values: &[Value]) -> Result<Option<Items<Text>>, NoMemory>
    ensures { IfOk result (λ names. names ≡ names_of (items_view values.now)) }
{
    let mut names = Items::new(alloc);
    for value in values {
        let Some(name) = string_of(alloc, value, TextKind::Name)? else {
            return Ok(None);
        };
        names.push(name)?;
    }
    Ok(Some(names))
}
