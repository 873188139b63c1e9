ghost use Rattle.std.specs.Prelude.{◌≡◌, ℕ, List};
ghost use Rattle.rm_types.specs.declared.scripts.Script.{Script};
ghost use Rattle.rm_lines.specs.Lines.{lines_of, AreLinesOf};
ghost use Rattle.rm_script.specs.Written.{Sent};
ghost use Rattle.rm_script.specs.Scripts.{IsLineOf, IsScript};
ghost use Rattle.rm_script.specs.Values.{IsToldScript};

/// The same bytes are one script at most.
pub fn law_one_script()
    ensures { (bytes : List ℕ) (one other : Script) → IsScript bytes one → IsScript bytes other → one ≡ other }
{}

/// No two lines spell one message, and no two messages share a line, whether they are delivered or lost.
pub fn law_one_line()
    ensures line { (one other : List ℕ) (sent : Sent) → IsLineOf one sent → IsLineOf other sent → one ≡ other }
    ensures message { (line : List ℕ) (one other : Sent) → IsLineOf line one → IsLineOf line other → one ≡ other }
{}

/// The lines of bytes are what the line feeds cut them into, and nothing else is.
pub fn law_lines()
    ensures lines { (bytes : List ℕ) → AreLinesOf bytes (lines_of bytes) }
    ensures only { (bytes : List ℕ) (lines : List (List ℕ)) → AreLinesOf bytes lines → lines ≡ lines_of bytes }
{}

/// What holds of each script that is read.
pub fn law_values()
    ensures { (bytes : List ℕ) (script : Script) → IsScript bytes script → IsToldScript script }
{}
