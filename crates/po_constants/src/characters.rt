// Values of character constants (C99 6.4.4.4).
ghost use Rattle.std.specs.Prelude.{◌≡◌};
ghost use Rattle.po_typed.specs.Constants as constants;
ghost use Rattle.po_typed.specs.Constants.{IsCharacterOf};
ghost use Rattle.po_constants.specs.Found.{Finds};

use po_exp_parts::characters::{begins, first_character, is_closed};

/// The value of a byte as a signed char (C99 6.4.4.4p10).
fn as_signed_char(byte: u8) -> i128
    ensures { result ≡ constants.as_signed_char byte }
{
    if byte < 128 {
        i128::from(byte)
    } else {
        i128::from(byte) - 256
    }
}

/// The value of a character constant of one character (C99 6.4.4.4); None exactly where the text is none. Time linear in the text.
pub fn character(text: &[u8]) -> Option<i128>
    ensures { Finds (IsCharacterOf text.now) result }
{
    if !begins(text, b'\'') {
        return None;
    }
    let character = first_character(text, 1, b'\'')?;
    if !is_closed(text, character.end, b'\'') {
        return None;
    }
    Some(as_signed_char(character.value))
}
