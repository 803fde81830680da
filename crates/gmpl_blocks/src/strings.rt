// What strings say.
ghost use Rattle.std.specs.Prelude.{◌≡◌, false, IfOk};
ghost use Rattle.gmpl_blocks.specs.Strings as spec;

use gmpl_text::Text;
use std::alloc::{AllocError, Global};

// What stands between quotes: the bytes behind the first up to the one that ends the string.
fn quoted(alloc: Global, quote: u8, text: &[u8]) -> Result<Vec<u8>, AllocError>
    ensures { IfOk result (λ bytes. bytes.items ≡ spec.quoted quote false text.now) }
{
    let mut bytes = Vec::new(alloc);
    let mut half = false;
    let mut rest = text;
    while let [byte, more @ ..] = rest {
        rest = more;
        let is_quote = *byte == quote;
        if half && !is_quote {
            return Ok(bytes);
        }
        if is_quote && !half {
            half = true;
        } else {
            bytes.push(*byte)?;
            half = false;
        }
    }
    Ok(bytes)
}

fn string_bytes(alloc: Global, text: &[u8]) -> Result<Vec<u8>, AllocError>
    ensures { IfOk result (λ bytes. bytes.items ≡ spec.string_bytes text.now) }
{
    match text {
        [] => Ok(Vec::new(alloc)),
        [quote, rest @ ..] => quoted(alloc, *quote, rest),
    }
}

// The text of these bytes, if they are UTF-8.
fn utf8_text(alloc: Global, bytes: &[u8]) -> Result<Option<Text>, AllocError>
    ensures { IfOk result (λ text. text ≡ spec.utf8_text bytes.now) }
{
    match str::from_utf8(bytes) {
        Ok(text) => {
            let made = Text::new(alloc, text)?;
            Ok(Some(made))
        }
        Err(_) => Ok(None),
    }
}

// What a string says, behind its quote and up to its end.
pub(crate) fn string_text(alloc: Global, text: &str) -> Result<Option<Text>, AllocError>
    ensures { IfOk result (λ said. said ≡ spec.string_text text.now) }
{
    let bytes = string_bytes(alloc, text.as_bytes())?;
    utf8_text(alloc, bytes.as_slice())
}
