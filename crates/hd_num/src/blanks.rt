// A text without the blanks at its ends.
ghost use Rattle.std.specs.Prelude.{◌≡◌};
ghost use Rattle.hd_num.specs.Lines.{is_blank, trimmed, without_end, without_start};

/// A text without the blanks at both ends. A blank is a space, a tab or a carriage return.
pub fn trim(text: &[u8]) -> &[u8]
    ensures { result.now ≡ trimmed text.now }
{
    trim_end(trim_start(text))
}

// A text without the blanks at its front.
fn trim_start(text: &[u8]) -> &[u8]
    ensures { result.now ≡ without_start is_blank text.now }
{
    'bytes: for (place, byte) in text.iter().enumerate() {
        if !is_blank(*byte) {
            return &text[place..];
        }
    }
    &[]
}

// A text without the blanks at its end.
fn trim_end(text: &[u8]) -> &[u8]
    ensures { result.now ≡ without_end is_blank text.now }
{
    let mut end = text.len();
    'bytes: while end > 0 && is_blank(text[end - 1]) {
        end -= 1;
    }
    &text[..end]
}

// Whether a byte is a blank.
fn is_blank(byte: u8) -> bool
    ensures { result ≡ is_blank byte }
{
    byte == b' ' || byte == b'\t' || byte == b'\r'
}
