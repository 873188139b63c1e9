ghost use Rattle.std.specs.Prelude.{◌≡◌, ◌≤◌, length, IfOk, position};
ghost use Rattle.std.specs.List.{list_any, prefix_len, suffix_len, position_or_len, before_first, after_first};
ghost use Rattle.rm_types.specs.AclTexts.{is_space, without_first_spaces, without_last_spaces, trimmed, items_of, is_among};
ghost use Rattle.rm_queues.specs.Acls.{meaning_of, allows, AdmitsAs};

use rm_types::{Items, NoMemory, Text};
use std::alloc::Global;
use std::marker::Model;

/// An access control list, read once. Contracts see what its text means.
#[derive(Drop)]
pub struct Acl {
    everyone: bool,
    users: Items<Text>,
    groups: Items<Text>,
}

impl Model for Acl {
    ghost use Rattle.rm_queues.specs.Acls.{AclMeaning};

    ghost Value = { AclMeaning };

    ghost view = { λ a. record { everyone = a.everyone; users = a.users; groups = a.groups } };
}

impl Acl {
    /// Reads a list: the users before the first space and the groups after it, each cut at commas.
    /// `*`, with or without outer spaces, names everyone.
    pub fn read(alloc: Global, text: &[u8]) -> Result<Acl, NoMemory>
        ensures meaning { IfOk result (λ acl. acl ≡ meaning_of text.now) }
        ensures admits { IfOk result (AdmitsAs text.now) }
    {
        let everyone = trimmed(text) == b"*".as_slice();
        let (users, groups) = cut_at_space(text);
        let users = items_of(alloc, users)?;
        let groups = items_of(alloc, groups)?;
        Ok(Acl {
            everyone,
            users,
            groups,
        })
    }

    /// Whether the list admits a user who is in these groups.
    pub fn admits(&self, user: &[u8], groups: &Items<Text>) -> bool
        ensures { result ≡ allows self.now user.now groups.now }
    {
        self.allows(user, groups.as_slice())
    }

    /// The same, with the groups as a slice.
    pub(crate) fn allows(&self, user: &[u8], groups: &[Text]) -> bool
        ensures { result ≡ allows self.now user.now groups.now }
    {
        self.everyone || is_among(user, &self.users) || any_among(groups, &self.groups)
    }
}

/// Whether a text is among others.
fn is_among(text: &[u8], others: &Items<Text>) -> bool
    ensures { result ≡ is_among text.now others.now }
{
    others.as_slice().iter().any(|other| other.bytes() == text)
}

/// Whether one of the texts is among others.
fn any_among(texts: &[Text], others: &Items<Text>) -> bool
    ensures { result ≡ list_any (λ text. is_among text others.now) texts.now }
{
    texts.iter().any(|text| is_among(text.bytes(), others))
}

/// How many spaces a text begins with.
fn first_spaces(text: &[u8]) -> usize
    ensures count { result ≡ prefix_len is_space text.now }
    ensures within { result ≤ length text.now }
{
    text.iter().take_while(|byte| **byte == b' ').count()
}

/// How many spaces a text ends with.
fn last_spaces(text: &[u8]) -> usize
    ensures count { result ≡ suffix_len is_space text.now }
    ensures within { result ≤ length text.now }
{
    text.iter().rev().take_while(|byte| **byte == b' ').count()
}

/// A text without its outer spaces.
fn trimmed(text: &[u8]) -> &[u8]
    ensures { result.now ≡ trimmed text.now }
{
    let text = &text[first_spaces(text)..];
    &text[..text.len() - last_spaces(text)]
}

/// What stands before the first space, and what stands after it.
fn cut_at_space(text: &[u8]) -> (&[u8], &[u8])
    ensures before { result.0.now ≡ before_first is_space text.now }
    ensures after { result.1.now ≡ after_first is_space text.now }
{
    match first_space(text) {
        Some(space) => (&text[..space], &text[space + 1..]),
        None => (text, &text[text.len()..]),
    }
}

/// Where the first space stands.
fn first_space(text: &[u8]) -> Option<usize>
    ensures { result ≡ position is_space text.now }
{
    text.iter().position(|byte| *byte == b' ')
}

/// The items of a part: what its commas separate, without outer spaces, where something is left.
fn items_of(alloc: Global, part: &[u8]) -> Result<Items<Text>, NoMemory>
    ensures { IfOk result (λ items. items ≡ items_of part.now) }
{
    let mut items = Items::new(alloc);
    for item in part.split(|byte| *byte == b',') {
        let item = trimmed(item);
        if !item.is_empty() {
            items.push(Text::from_bytes(alloc, item)?)?;
        }
    }
    Ok(items)
}
