ghost use Rattle.std.specs.Prelude.{◌≡◌};
ghost use Rattle.dch_script.specs.Forms.{one_shown};
ghost use Rattle.dch_script.specs.Meaning.{content_of};

use crate::code::LONGEST_LINE;
use crate::event::LineError;

/// A line without its line feed; `Long` or `Cut` where it is no line.
pub fn content_of(line: &[u8]) -> Result<&[u8], LineError>
    ensures { one_shown result ≡ content_of line.entry.now }
{
    match line {
        [content @ .., b'\n'] if content.len() > LONGEST_LINE => Err(LineError::Long),
        [content @ .., b'\n'] => Ok(content),
        _ if line.len() > LONGEST_LINE => Err(LineError::Long),
        _ => Err(LineError::Cut),
    }
}
