// The point of a line, read without a list of its words.
ghost use Rattle.std.specs.Prelude.{◌≡◌};
ghost use Rattle.hd_num.specs.Lines.{words_of};
ghost use Rattle.hd_check.specs.Reading.{point_form};

use hd_map::Pos;
use hd_num::{first_word, read_count};

/// The point of the line `X Y`.
pub fn point_in(line: &[u8]) -> Option<Pos>
    ensures { result ≡ point_form (words_of line.now) }
{
    let (x, rest) = first_word(line)?;
    let (y, rest) = first_word(rest)?;
    if first_word(rest).is_some() {
        return None;
    }
    let x = read_count(x)?;
    let y = read_count(y)?;
    Some(Pos { x, y })
}
