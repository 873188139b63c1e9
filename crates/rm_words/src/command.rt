ghost use Rattle.std.specs.Prelude.{◌≡◌, map, string_bytes, Some, None, IfSome, IfNone, IfErr, IfOk, true};
ghost use Rattle.rm_words.specs.Words.{IsWithinSoak, asked, has_flags, is_in_file, mode_of, shows_moves};

use crate::flags::has_flags;
use crate::modes::{Mode, mode_by};
use crate::reading::read_words;
use rm_types::NoMemory;
use std::alloc::Global;

/// What the program's words ask for, and the flags that stand among them.
#[derive(Clone, Copy)]
pub struct CommandLine<'a> {
    /// What the program is to do.
    pub mode: Mode<'a>,
    /// Whether the page of a run is to show its moves: `--moves` is among the words.
    pub shows_moves: bool,
    /// Whether the device is to be one in a file: `--file` is among the words.
    pub is_in_file: bool,
}

/// What the program's words ask for. But for the flags `--file` and `--moves`, each of which may stand anywhere and once,
/// they are the word of a mode and what stands behind it by the table of modes (`ModeName::row`), which also says whether it
/// may have `--moves`. The answer is `None` where the words are not of this form; another word that
/// begins with `-` is no part of it. Want of memory may come on any words but those with a flag that is unknown or repeated.
pub fn command_line<'a>(
    alloc: Global,
    words: &'a [String],
) -> Result<Option<CommandLine<'a>>, NoMemory>
    ensures some { IfOk result (λ answer. IfSome answer (λ line. mode_of (map string_bytes words.now) ≡ Some (asked line.mode))) }
    ensures within { IfOk result (λ answer. IfSome answer (λ line. IsWithinSoak line.mode)) }
    ensures moves { IfOk result (λ answer. IfSome answer (λ line. line.shows_moves ≡ shows_moves (map string_bytes words.now))) }
    ensures file { IfOk result (λ answer. IfSome answer (λ line. line.is_in_file ≡ is_in_file (map string_bytes words.now))) }
    ensures none { IfOk result (λ answer. IfNone answer (mode_of (map string_bytes words.now) ≡ None)) }
    ensures err { IfErr result (λ error. has_flags (map string_bytes words.now) ≡ true) }
{
    if !has_flags(words) {
        return Ok(None);
    }
    let matches = read_words(alloc, words)?;
    let shows_moves = matches.get_flag("moves");
    let is_in_file = matches.get_flag("file");
    let Some(names) = matches.get_strs("names") else {
        return Ok(None);
    };
    let Some(mode) = mode_by(names, shows_moves) else {
        return Ok(None);
    };
    Ok(Some(CommandLine {
        mode,
        shows_moves,
        is_in_file,
    }))
}
