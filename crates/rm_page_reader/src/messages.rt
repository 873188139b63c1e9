ghost use Rattle.std.specs.Prelude.{◌≡◌, IfOk};
ghost use Rattle.rm_types.specs.declared.messages.Message.{Message as AnyMessage};
ghost use Rattle.rm_formats.specs.Wording.{message_text};
ghost use Rattle.rm_page.specs.Ranges.{IsPageMessage};
ghost use Rattle.rm_page_reader.specs.Answers.{GivesValue};
ghost use Rattle.rm_page_reader.specs.Told.{IsOfScript};

use rm_lines::LineError;
use rm_script::read_message;
use rm_types::Message;
use std::alloc::Global;

/// A message by its words, which are its line in a script.
pub(crate) fn message(alloc: Global, text: &[u8]) -> Result<Message, LineError>
    ensures ranges { IfOk result IsPageMessage }
    ensures only { (message : AnyMessage) → IsOfScript message → text.now ≡ message_text message → GivesValue result message }
{
    read_message(alloc, text)
}
