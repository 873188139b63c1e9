ghost use Rattle.std.specs.Prelude.{◌≡◌, ◌↔◌, map, string_bytes, IfOk, IsSome, None};
ghost use Rattle.rm_words.specs.Words.{mode_of};

use crate::command::command_line;
use crate::flags::{is_flag, is_unknown, name_at, stands_once};
use crate::modes::{ModeName, Operand};
use rm_lines::number_in;
use rm_soak::MOST_SOAKED;
use rm_types::NoMemory;
use std::alloc::Global;
use thiserror::Error;

/// What is wrong with words that ask for nothing.
#[derive(Clone, Copy, Debug, Error)]
pub enum WordFault<'a> {
    /// This word begins with `-` and is no flag.
    #[error("`{}` is no flag", .word.escape_default())]
    UnknownFlag { word: &'a str },
    /// This flag stands more than once.
    #[error("`{word}` stands more than once")]
    RepeatedFlag { word: &'static str },
    /// No mode is named.
    #[error("no mode is named")]
    NoMode,
    /// This word is no mode.
    #[error("`{}` is no mode", .word.escape_default())]
    UnknownMode { word: &'a str },
    /// The mode lacks what stands behind it.
    #[error("`{}` lacks {what}", .mode.escape_default())]
    Lacks { mode: &'a str, what: &'static str },
    /// This word is one more than the mode has.
    #[error("`{}` is one word too many for `{}`", .word.escape_default(), .mode.escape_default())]
    Surplus { mode: &'a str, word: &'a str },
    /// This word is no number of applications of a soak.
    #[error("`{}` is no number from 1 to {}", .word.escape_default(), MOST_SOAKED)]
    NoNumber { word: &'a str },
    /// The mode writes no page that has moves.
    #[error("`{}` writes no moves", .mode.escape_default())]
    NoMoves { mode: &'a str },
}

/// What is wrong with the words, where they ask for nothing: a flag first, then the mode, then what stands behind it. The
/// answer is `None` exactly where they ask for something; want of memory may come on any words.
pub fn word_fault<'a>(alloc: Global, words: &'a [String]) -> Result<Option<WordFault<'a>>, NoMemory>
    ensures { IfOk result (λ fault. IsSome fault ↔ (mode_of (map string_bytes words.now) ≡ None)) }
{
    match command_line(alloc, words)? {
        Some(_) => Ok(None),
        None => Ok(Some(fault_among(words))),
    }
}

/// What is wrong with words that ask for nothing. It reads no command line.
pub fn fault_among(words: &[String]) -> WordFault<'_> {
    match flag_fault(words) {
        Some(fault) => fault,
        None => name_fault(words),
    }
}

/// The first flag that is unknown, or else one that stands more than once.
fn flag_fault(words: &[String]) -> Option<WordFault<'_>> {
    if let Some(word) = words.iter().find(|word| is_unknown(word.as_str())) {
        let word = word.as_str();
        return Some(WordFault::UnknownFlag { word });
    }
    if !stands_once("--file", words) {
        return Some(WordFault::RepeatedFlag { word: "--file" });
    }
    if !stands_once("--moves", words) {
        return Some(WordFault::RepeatedFlag { word: "--moves" });
    }
    None
}

/// How many of the words are names.
fn names_among(words: &[String]) -> usize {
    words.iter().filter(|word| !is_flag(word.as_str())).count()
}

/// What is wrong with words whose flags are right.
fn name_fault(words: &[String]) -> WordFault<'_> {
    let mode = name_at(words, 0);
    if mode.is_empty() {
        return WordFault::NoMode;
    }
    let Some(name) = ModeName::of_word(mode) else {
        return WordFault::UnknownMode { word: mode };
    };
    let operands = name.row().operands;
    let found = names_among(words).saturating_sub(1);
    if let Some(operand) = operands.get(found) {
        let what = operand.meaning();
        return WordFault::Lacks { mode, what };
    }
    if found > operands.len() {
        let word = name_at(words, operands.len() + 1);
        return WordFault::Surplus { mode, word };
    }
    let number = name_at(words, 1);
    let is_soak = operands.first() == Some(&Operand::Applications);
    if is_soak && number_in(number.as_bytes(), 1, u64::from(MOST_SOAKED)).is_none() {
        return WordFault::NoNumber { word: number };
    }
    WordFault::NoMoves { mode }
}
