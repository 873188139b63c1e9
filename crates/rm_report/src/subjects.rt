ghost use Rattle.std.specs.Prelude.{◌≡◌, ℕ, IfOk, Err};
ghost use Rattle.std.specs.List.{list_any};
ghost use Rattle.rm_types.specs.Ids as ids;
ghost use Rattle.rm_types.specs.Ranges.{IsText};
ghost use Rattle.rm_types.specs.declared.texts.TextKind.TheVariants as kinds;

use crate::errors::ReportError;
use rm_formats::ids::{read_app, read_attempt, read_container};
use rm_types::{AppId, AttemptId, ContainerId, Text, TextError, TextKind};
use std::alloc::Global;

/// What a page is searched for: an application, with its attempts and their containers; an attempt, with its containers; a
/// container; or a node.
#[derive(Drop)]
pub enum Subject {
    App(AppId),
    Attempt(AttemptId),
    Container(ContainerId),
    Node(Text),
}

impl Subject {
    ghost use Rattle.rm_report.specs.Naming.{covers, IsSubjectText};

    /// The subject whose text the bytes are. What is the text of no other id is a node's name where it can be one. `NotAnId` comes
    /// only where it can't.
    pub fn read(alloc: Global, text: &[u8]) -> Result<Subject, ReportError>
        ensures read { IfOk result (IsSubjectText text.now) }
        ensures not_an_id { result ≡ Err ReportError.NotAnId → IsText kinds.Node text.now → ⊥ }
        ensures no_page { (line : ℕ) → result ≡ Err (ReportError.NotAPage line) → ⊥ }
    {
        if let Ok(id) = read_app(text) {
            return Ok(Subject::App(id));
        }
        if let Ok(id) = read_attempt(text) {
            return Ok(Subject::Attempt(id));
        }
        if let Ok(id) = read_container(text) {
            return Ok(Subject::Container(id));
        }
        match Text::read(alloc, text, TextKind::Node) {
            Ok(node) => Ok(Subject::Node(node)),
            Err(TextError::NotText { .. }) => Err(ReportError::NotAnId),
            Err(TextError::Memory) => Err(ReportError::Memory),
        }
    }

    /// Whether what names the application is about the subject.
    pub(crate) fn covers_app(&self, other: AppId) -> bool
        ensures { result ≡ covers self.now (Subject.App other) }
    {
        match self {
            Subject::App(id) => is_app(*id, other),
            _ => false,
        }
    }

    /// Whether what names the attempt is about the subject.
    pub(crate) fn covers_attempt(&self, other: AttemptId) -> bool
        ensures { result ≡ covers self.now (Subject.Attempt other) }
    {
        match self {
            Subject::App(id) => is_app(*id, other.app),
            Subject::Attempt(id) => is_attempt(*id, other),
            _ => false,
        }
    }

    /// Whether what names the container is about the subject.
    pub(crate) fn covers_container(&self, other: ContainerId) -> bool
        ensures { result ≡ covers self.now (Subject.Container other) }
    {
        match self {
            Subject::App(id) => is_app(*id, other.attempt.app),
            Subject::Attempt(id) => is_attempt(*id, other.attempt),
            Subject::Container(id) => is_container(*id, other),
            Subject::Node(_) => false,
        }
    }

    /// Whether what names the node is about the subject.
    pub(crate) fn covers_node(&self, other: &Text) -> bool
        ensures { result ≡ covers self.now (Subject.Node other.now) }
    {
        match self {
            Subject::Node(node) => node.is_same(other),
            _ => false,
        }
    }

    /// The same of any of these containers.
    pub(crate) fn covers_any(&self, others: &[ContainerId]) -> bool
        ensures { result ≡ list_any (λ other. covers self.now (Subject.Container other)) others.now }
    {
        others.iter().any(|other| self.covers_container(*other))
    }
}

fn is_app(a: AppId, b: AppId) -> bool
    ensures { result ≡ ids.is_app a b }
{
    a.stamp == b.stamp && a.number == b.number
}

fn is_attempt(a: AttemptId, b: AttemptId) -> bool
    ensures { result ≡ ids.is_attempt a b }
{
    is_app(a.app, b.app) && a.number == b.number
}

fn is_container(a: ContainerId, b: ContainerId) -> bool
    ensures { result ≡ ids.is_container a b }
{
    is_attempt(a.attempt, b.attempt) && a.epoch == b.epoch && a.seq == b.seq
}
