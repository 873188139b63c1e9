ghost use Rattle.std.specs.Prelude.{◌≡◌, ◌↔◌, ◌+◌, ℕ, List, [], ◌∷◌, ◌++◌, not, IsTrue, IfOk, IfErr, IfSome, None, length};
ghost use Rattle.std.specs.Option.{option_map_or};
ghost use Rattle.rm_formats.specs.Wording.{spaced};
ghost use Rattle.rm_page.proofs.Bytes.{cut};
ghost use Rattle.rm_types.specs.Ranges.{IsText};
ghost use Rattle.rm_lines.specs.Results.{Finds, IsOf};

use crate::cuts::{halves, text_behind};
use crate::errors::LineError;
use crate::faults::{LineFault, Part};
use crate::texts::text;
use rm_types::{Text, TextKind};
use std::alloc::Global;
use std::marker::Model;

/// What is left of a line, whose words are taken one after another. One space stands between each two. A line of no words
/// is none: what is left is nothing only behind the last word.
#[derive(Drop)]
pub struct Words<'a> {
    rest: Option<&'a [u8]>,
}

impl<'a> Model for Words<'a> {
    ghost use Rattle.std.specs.Prelude.{ℕ, List, []};
    ghost use Rattle.std.specs.Option.{option_map_or};
    ghost use Rattle.rm_page.proofs.Bytes.{cut};

    ghost Value = { List (List ℕ) };

    ghost view = { λ words. option_map_or (λ rest. cut 32 rest.now) words.rest [] };
}

impl<'a> Words<'a> {
    /// All words of a line.
    pub fn of(line: &'a [u8]) -> Words<'a>
        ensures { result ≡ cut 32 line.now }
    {
        Words { rest: Some(line) }
    }

    /// What is left: the words with one space between each two.
    pub fn text_left(&self) -> &'a [u8]
        ensures { result.now ≡ spaced self.now }
    {
        match self.rest {
            Some(rest) => rest,
            None => &[],
        }
    }

    /// The column, counted from 1, of the next word in the line that these words end; behind the last word it is one past the line.
    pub fn column(&self, line: &[u8]) -> usize
        ensures { (front : List ℕ) → line.now ≡ front ++ spaced self.now → result ≡ length front + 1 }
    {
        line.len().saturating_sub(self.text_left().len()) + 1
    }

    /// Takes the next word.
    pub fn word(&mut self) -> Result<&'a [u8], LineError>
        ensures word { IfOk result (λ word. self.old ≡ word.now ∷ self.new) }
        ensures none { IfErr result (λ error. self.old ≡ []) }
    {
        let rest = self.rest()?;
        match halves(rest, b' ') {
            Some((word, after)) => {
                self.rest = Some(after);
                Ok(word)
            }
            None => Ok(rest),
        }
    }

    /// Takes all that is left, in which spaces may stand.
    pub fn rest(&mut self) -> Result<&'a [u8], LineError>
        ensures rest { IfOk result (λ rest. self.old ≡ cut 32 rest.now) }
        ensures left { self.new ≡ [] }
        ensures none { IfErr result (λ error. self.old ≡ []) }
    {
        self.rest.take().ok_or(LineError::Refused(LineFault::Form))
    }

    /// Takes the next word where it is this one, and tells whether it did.
    pub fn takes(&mut self, word: &[u8]) -> bool
        ensures taken { IsTrue result → self.old ≡ word.now ∷ self.new }
        ensures not_taken { IsTrue (not result) → (self.new ≡ self.old) × ((left : List (List ℕ)) → self.old ≡ word.now ∷ left → ⊥) }
    {
        let Some(rest) = self.rest else {
            return false;
        };
        let (first, left) = first_word(rest);
        if first == word {
            self.rest = left;
            true
        } else {
            false
        }
    }

    /// Takes the next word, and gives what stands in it behind a name.
    pub fn field(&mut self, name: &[u8]) -> Result<&'a [u8], LineError>
        ensures field { IfOk result (λ text. self.old ≡ (name.now ++ text.now) ∷ self.new) }
        ensures none { IfErr result (λ error. (text : List ℕ) (left : List (List ℕ)) → self.old ≡ (name.now ++ text) ∷ left → ⊥) }
    {
        text_behind(self.word()?, name)
    }

    /// Takes the next word where it begins with a name, and gives what stands in it behind that; else takes nothing.
    pub fn optional_field(&mut self, name: &[u8]) -> Option<&'a [u8]>
        ensures field { IfSome result (λ text. self.old ≡ (name.now ++ text.now) ∷ self.new) }
        ensures none { result ≡ None → (self.new ≡ self.old) × ((text : List ℕ) (left : List (List ℕ)) → self.old ≡ (name.now ++ text) ∷ left → ⊥) }
    {
        let Some(rest) = self.rest else {
            return None;
        };
        let (first, left) = first_word(rest);
        match text_behind(first, name) {
            Ok(text) => {
                self.rest = left;
                Some(text)
            }
            Err(_) => None,
        }
    }

    /// Takes all that is left, and gives what stands in it behind a name.
    pub fn last_field(&mut self, name: &[u8]) -> Result<&'a [u8], LineError>
        ensures field { IfOk result (λ text. self.old ≡ cut 32 (name.now ++ text.now)) }
        ensures none { IfErr result (λ error. (text : List ℕ) → self.old ≡ cut 32 (name.now ++ text) → ⊥) }
    {
        text_behind(self.rest()?, name)
    }

    /// Takes all that is left, and gives the text of a kind that stands in it behind a name.
    pub fn last_text(
        &mut self,
        alloc: Global,
        name: &[u8],
        part: Part,
        kind: TextKind,
    ) -> Result<Text, LineError>
        ensures { Finds result (IsOf (λ text. cut 32 (name.now ++ text)) (IsText kind) self.old) }
    {
        text(alloc, self.last_field(name)?, part, kind)
    }

    /// Whether no word is left.
    pub fn is_empty(&self) -> bool
        ensures { IsTrue result ↔ (self.now ≡ []) }
    {
        self.rest.is_none()
    }

    /// Whether one word is left.
    pub fn is_last(&self) -> bool
        ensures { IsTrue result ↔ (length self.now ≡ 1) }
    {
        match self.rest {
            Some(rest) => first_word(rest).1.is_none(),
            None => false,
        }
    }

    /// Refuses the line where a word is left.
    pub fn end(&self) -> Result<(), LineError>
        ensures end { IfOk result (λ nothing. self.now ≡ []) }
        ensures more { IfErr result (λ error. self.now ≡ [] → ⊥) }
    {
        if self.is_empty() {
            Ok(())
        } else {
            Err(LineError::Refused(LineFault::Form))
        }
    }
}

/// The first word of a line, and what stands behind it, where something does.
fn first_word(line: &[u8]) -> (&[u8], Option<&[u8]>)
    ensures { cut 32 line.now ≡ result.0.now ∷ option_map_or (λ after. cut 32 after.now) result.1 [] }
{
    match halves(line, b' ') {
        Some((first, after)) => (first, Some(after)),
        None => (line, None),
    }
}
