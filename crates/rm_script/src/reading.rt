ghost use Rattle.std.specs.Prelude.{◌≡◌, ◌⊎◌, ℕ, Ok, Err, IfOk};
ghost use Rattle.rm_types.specs.declared.scripts.Script.{Script};
ghost use Rattle.rm_script.specs.Scripts.{IsScript};
ghost use Rattle.rm_script.specs.Refusals.{IsFirstRefused};
ghost use Rattle.rm_script.specs.Reading.{AnswersReading};

use crate::drafts::Draft;
use crate::errors::ScriptError;
use crate::limits::MOST_BYTES;
use rm_lines::cut_line;
use rm_types::{Items, MOST_LINES, Script};
use std::alloc::Global;

/// Reads a script: the one that the bytes are. `Refused` names the first line that is refused, where they
/// are none. `Memory` may come of any bytes. Time and memory are linear in their number.
pub fn read_script(alloc: Global, bytes: &[u8]) -> Result<Script, ScriptError>
    ensures read { IfOk result (λ script. IsScript bytes.now script) }
    ensures refused { (line : ℕ) → result ≡ Err (ScriptError.Refused line) → IsFirstRefused bytes.now line }

    // Nothing but want of memory keeps a script, or the line to be refused, from being told.
    ensures script_told { (script : Script) → IsScript bytes.now script → (result ≡ Ok script) ⊎ (result ≡ Err ScriptError.Memory) }
    ensures line_told { (line : ℕ) → IsFirstRefused bytes.now line → (result ≡ Err (ScriptError.Refused line)) ⊎ (result ≡ Err ScriptError.Memory) }
{
    script_of(alloc, bytes)
}

/// The script that the lines of the bytes read as, or the first line at which reading fails.
fn script_of(alloc: Global, bytes: &[u8]) -> Result<Script, ScriptError>
    ensures { AnswersReading bytes.now result }
{
    let mut draft = Draft::Between(Items::new(alloc));
    let mut rest = bytes;
    let mut count: u32 = 0;
    'lines: while !rest.is_empty() {
        let (text, after) = cut_line(rest);
        let line = count + 1;
        if line > MOST_LINES || bytes.len() - after.len() > MOST_BYTES {
            return Err(ScriptError::Refused { line });
        }
        draft = match draft.with_text(alloc, text) {
            Ok(next) => next,
            Err(error) => return Err(ScriptError::at(error, line)),
        };
        rest = after;
        count = line;
    }
    match draft.into_script() {
        Ok(script) => Ok(script),
        Err(error) => Err(ScriptError::at(error, count + 1)),
    }
}
