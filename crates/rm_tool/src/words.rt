ghost use Rattle.std.specs.Prelude.{◌≡◌, [], ◌∷◌, Some, None, IfErr, IfNone, IfOk, IfSome, true, map, string_bytes};
ghost use Rattle.clap.specs.Walk.{texts};
ghost use Rattle.rm_tool.specs.Words.{requested, request_named, request_of};
ghost use Rattle.rm_words.specs.Words.{are_names};

use rm_types::NoMemory;
use rm_words::{are_names, read_names};
use std::alloc::Global;

/// What the tool is to do.
#[derive(Clone, Copy, Debug)]
pub enum Mode<'a> {
    /// Says whether the store in this file is whole.
    Check { file: &'a str },
    /// Writes the store of the old form in one file as one of two areas, in another.
    Convert { old: &'a str, new: &'a str },
    /// Writes what can be read of the store in one file as a new store, in another.
    Salvage { file: &'a str, new: &'a str },
    /// Tells in short what the page in a file tells.
    Summary { page: &'a str },
    /// Tells the lines of a page that name an application, an attempt, a container or a node.
    Follow { page: &'a str, id: &'a str },
    /// Draws the run whose page this is.
    Draw { page: &'a str },
}

/// What the words ask for: `check FILE`, `convert OLD NEW`, `salvage FILE NEW`, `summary PAGE`, `follow PAGE ID` or `draw PAGE`, of which none begins with `-`. The answer is `None` exactly
/// where they are of another form. Want of memory may come on any words but those that begin with `-`.
pub fn mode_of<'a>(alloc: Global, words: &'a [String]) -> Result<Option<Mode<'a>>, NoMemory>
    ensures some { IfOk result (λ answer. IfSome answer (λ mode. request_of (map string_bytes words.now) ≡ Some (requested mode))) }
    ensures none { IfOk result (λ answer. IfNone answer (request_of (map string_bytes words.now) ≡ None)) }
    ensures err { IfErr result (λ _. are_names (map string_bytes words.now) ≡ true) }
{
    if !are_names(words) {
        return Ok(None);
    }
    let matches = read_names(alloc, words)?;
    let Some(names) = matches.get_strs("names") else {
        return Ok(None);
    };
    Ok(mode_by(names))
}

/// The mode that these names ask for.
fn mode_by<'a>(names: &[&'a str]) -> Option<Mode<'a>>
    ensures some { IfSome result (λ mode. request_named (texts names.now) ≡ Some (requested mode)) }
    ensures none { IfNone result (request_named (texts names.now) ≡ None) }
{
    match names {
        [mode, file] => mode_of_two(mode, file),
        [mode, file, new] => mode_of_three(mode, file, new),
        _ => None,
    }
}

/// The mode that two names ask for.
fn mode_of_two<'a>(mode: &str, file: &'a str) -> Option<Mode<'a>>
    ensures some { IfSome result (λ asks. request_named (mode.now ∷ file.now ∷ []) ≡ Some (requested asks)) }
    ensures none { IfNone result (request_named (mode.now ∷ file.now ∷ []) ≡ None) }
{
    if mode == "check" {
        Some(Mode::Check { file })
    } else if mode == "summary" {
        Some(Mode::Summary { page: file })
    } else if mode == "draw" {
        Some(Mode::Draw { page: file })
    } else {
        None
    }
}

/// The mode that three names ask for.
fn mode_of_three<'a>(mode: &str, file: &'a str, new: &'a str) -> Option<Mode<'a>>
    ensures some { IfSome result (λ asks. request_named (mode.now ∷ file.now ∷ new.now ∷ []) ≡ Some (requested asks)) }
    ensures none { IfNone result (request_named (mode.now ∷ file.now ∷ new.now ∷ []) ≡ None) }
{
    if mode == "convert" {
        Some(Mode::Convert { old: file, new })
    } else if mode == "salvage" {
        Some(Mode::Salvage { file, new })
    } else if mode == "follow" {
        Some(Mode::Follow {
            page: file,
            id: new,
        })
    } else {
        None
    }
}
