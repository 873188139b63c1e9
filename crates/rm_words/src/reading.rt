ghost use Rattle.std.specs.Prelude.{◌≡◌, IfErr, IfOk, map, string_bytes, true};
ghost use Rattle.clap.specs.Words.{app_of, kind_of};
ghost use Rattle.rm_words.specs.Words.{are_names, has_flags};
ghost use Rattle.rm_words.specs.Reading.{MatchesNames, MatchesWords, program};

use clap::error::ErrorKind;
use clap::{Arg, ArgAction, ArgMatches, Command, Error};
use rm_types::NoMemory;
use std::alloc::{AllocError, Global};

/// The command that the words are read by: the two flags, and any number of names among them.
fn program<'a>(alloc: Global) -> Result<Command<'a>, AllocError>
    ensures { IfOk result (λ command. app_of command ≡ program) }
{
    let in_file = Arg::new(alloc, "file")
        .long("file")
        .action(ArgAction::SetTrue);
    let moves = Arg::new(alloc, "moves")
        .long("moves")
        .action(ArgAction::SetTrue);
    let names = Arg::new(alloc, "names").action(ArgAction::Append);
    Command::new(alloc, "yewendro")
        .no_binary_name(true)
        .disable_help_flag(true)
        .arg(in_file)?
        .arg(moves)?
        .arg(names)
}

/// The matches of words whose flags are right, which `clap` refuses for want of memory alone.
fn matches_of<'a>(alloc: Global, words: &'a [String]) -> Result<ArgMatches<'a>, Error>
    requires { has_flags (map string_bytes words.now) ≡ true }
    ensures ok { IfOk result (λ matches. MatchesWords matches (map string_bytes words.now)) }
    ensures err { IfErr result (λ error. kind_of error ≡ ErrorKind.OutOfMemory) }
{
    program(alloc)?.try_get_matches_from(words)
}

/// What stands among words whose flags are right: the names in their order, and each of the two flags.
pub(crate) fn read_words<'a>(alloc: Global, words: &'a [String]) -> Result<ArgMatches<'a>, NoMemory>
    requires { has_flags (map string_bytes words.now) ≡ true }
    ensures { IfOk result (λ matches. MatchesWords matches (map string_bytes words.now)) }
{
    match matches_of(alloc, words) {
        Ok(matches) => Ok(matches),
        Err(error) => {
            let kind = error.kind();
            prove!(matches!(kind, ErrorKind::OutOfMemory));
            Err(NoMemory)
        }
    }
}

/// What stands among words of which none begins with `-`: all of them as `names`, in their order.
pub fn read_names<'a>(alloc: Global, words: &'a [String]) -> Result<ArgMatches<'a>, NoMemory>
    requires { are_names (map string_bytes words.now) ≡ true }
    ensures { IfOk result (λ matches. MatchesNames matches (map string_bytes words.now)) }
{
    read_words(alloc, words)
}
