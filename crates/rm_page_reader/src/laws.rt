ghost use Rattle.rm_page_reader.specs.Told.{IsOneReading};

use rm_page::lines_tell_entries;

/// What is read of a page is what its page shows of any log that has it: the entries that have lines, but for the sizes and
/// nodes that no line tells.
pub fn law_one_reading()
    ensures { IsOneReading }
{
    lines_tell_entries();
}
