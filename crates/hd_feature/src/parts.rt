// The parts of a notation, one after another.
ghost use Rattle.std.specs.Prelude.{◌≡◌, ◌∷◌, ◌<◌, ◌^◌, ℕ, List, Option};
ghost use Rattle.hd_feature.specs.Parts.{parts_left, parts_of, Reads};

use crate::NotationError;

/// What a part of a notation writes.
pub trait NotationPart: Sized {
    /// What a text writes as this part, or none where it has not the form.
    ghost form_of: { List ℕ → Option Self };

    /// What a text writes as this part, or none where it has not the form.
    fn form(text: &[u8]) -> Option<Self>
        ensures { result ≡ form_of text.now };
}

/// What the first of the parts that are left writes, and the parts that are left after it. The part
/// has this number.
pub fn read_part<P: NotationPart>(
    number: u8,
    rest: Option<&[u8]>,
) -> Result<(P, Option<&[u8]>), NotationError>
    ensures { Reads number P.form_of (parts_left rest.entry) result }
{
    let Some(text) = rest else {
        return Err(NotationError::BadPart(number));
    };
    let (text, rest) = split_part(text);
    match P::form(text) {
        Some(value) => Ok((value, rest)),
        None => Err(NotationError::BadPart(number)),
    }
}

// The text before the first `;`, and the text after it, or none without a `;`.
fn split_part(text: &[u8]) -> (&[u8], Option<&[u8]>)
    ensures { parts_of text.now ≡ result.0.now ∷ parts_left result.1 }
{
    'bytes: for (place, byte) in text.iter().enumerate() {
        if *byte == b';' {
            return (&text[..place], Some(&text[place + 1..]));
        }
    }
    (text, None)
}
