// The word of OBJSENSE.
ghost use Rattle.std.specs.Prelude.{◌≡◌, map};
ghost use Rattle.model_text.specs.Follows.{Follows};
ghost use Rattle.mps_reader.specs.Sense.{is_word, sense_of, sense_line, sense_on_header};

use instance::Direction;
use model_text::{FaultKind, ReadError};
use mps_draft::Draft;

fn is_word(text: &str, word: &str) -> bool
    ensures { result ≡ is_word text.now word.now }
{
    text.eq_ignore_ascii_case(word)
}

fn sense_of(word: &str) -> Option<Direction>
    ensures { result ≡ sense_of word.now }
{
    if is_word(word, "MAX") || is_word(word, "MAXIMIZE") {
        Some(Direction::Max)
    } else if is_word(word, "MIN") || is_word(word, "MINIMIZE") {
        Some(Direction::Min)
    } else {
        None
    }
}

// The word alone.
pub(crate) fn sense_line(draft: &mut Draft, fields: &[&str]) -> Result<(), ReadError<FaultKind>>
    ensures { Follows result draft.new (sense_line (map (λ f. f.now) fields.now) draft.old) }
{
    match fields {
        [word] => match sense_of(word) {
            Some(direction) => {
                draft.set_sense(direction);
                Ok(())
            }
            None => Err(ReadError::Fault(FaultKind::BadLine)),
        },
        _ => Err(ReadError::Fault(FaultKind::BadLine)),
    }
}

// The word behind the header's, or nothing.
pub(crate) fn sense_on_header(
    draft: &mut Draft,
    fields: &[&str],
) -> Result<(), ReadError<FaultKind>>
    ensures { Follows result draft.new (sense_on_header (map (λ f. f.now) fields.now) draft.old) }
{
    if fields.is_empty() {
        Ok(())
    } else {
        sense_line(draft, fields)
    }
}
