// The edits by filters, whose elements are named.
ghost use Rattle.std.specs.Prelude.{◌≡◌, ◌⊎◌, Err, All, IfOk, map};
ghost use Rattle.hd_num.specs.Span.{IsPart, text_at};
ghost use Rattle.hd_script.specs.Filters.{edit_by};
ghost use Rattle.hd_script.specs.CommandWords.{filter_words};
ghost use Rattle.hd_script.specs.Whole.{IsWhole};

use crate::words::{name_word, text};
use crate::{Command, LineError};
use hd_edit::Edit;
use hd_list::List;
use hd_num::Span;
use std::alloc::Global;

/// The filters.
#[derive(Clone, Copy)]
pub enum FilterWord {
    /// The dilation.
    Dilate,
    /// The erosion.
    Erode,
    /// The opening.
    Open,
    /// The closing.
    Close,
}

// The edit by a filter with the element of a name.
fn edit_by(filter: FilterWord, name: List<u8>) -> Edit
    ensures { result ≡ edit_by filter name }
{
    match filter {
        FilterWord::Dilate => Edit::Dilate { name },
        FilterWord::Erode => Edit::Erode { name },
        FilterWord::Open => Edit::Open { name },
        FilterWord::Close => Edit::Close { name },
    }
}

/// `dilate NAME`, `erode NAME`, `open NAME` or `close NAME`.
pub fn filter_words(
    alloc: Global,
    line: &[u8],
    words: &[Span],
    filter: FilterWord,
) -> Result<Command, LineError>
    requires { All (IsPart line.now) words.now }
    ensures value { (result ≡ Err LineError.Memory)
        ⊎ (result ≡ filter_words (edit_by filter) (map (text_at line.now) words.now)) }
    ensures whole { IfOk result IsWhole }
{
    let [name] = words else {
        return Err(LineError::WordCount);
    };
    let name = name_word(alloc, 2, text(line, *name))?;
    Ok(Command::Do(edit_by(filter, name)))
}
