// Texts and points of rows.
use fraction::Frac;
use instance::Point;
use std::alloc::{AllocError, Global};

/// A word, and what comes behind the blank after it.
pub(crate) fn cut(words: &str) -> (&str, &str) {
    words.split_once(' ').unwrap_or((words, ""))
}

/// The bytes of a text: `$` is a line feed, `^` a carriage return, and `~` a byte that no text has.
pub(crate) fn bytes_of(alloc: Global, text: &str) -> Result<Vec<u8>, AllocError> {
    let mut bytes = Vec::new(alloc);
    for byte in text.bytes() {
        bytes.push(match byte {
            b'$' => b'\n',
            b'^' => b'\r',
            b'~' => 255,
            byte => byte,
        })?;
    }
    Ok(bytes)
}

/// Bytes as a row has them, where they are a text.
pub(crate) fn in_marks(alloc: Global, bytes: &[u8]) -> Result<String, AllocError> {
    str::from_utf8(bytes)
        .unwrap_or("no text")
        .replace(alloc, "\n", "$")
}

/// The point of numbers with commas between them.
pub(crate) fn point_of(alloc: Global, numbers: &str) -> Result<Point, AllocError> {
    let mut all = Vec::new(alloc);
    for word in numbers.split(',') {
        all.push(Frac::read_canonical(word).unwrap_or(Frac::zero()))?;
    }
    Ok(Point::from_vec(all))
}

/// The numbers of a point, with commas between them.
pub(crate) fn numbers_of(alloc: Global, point: &Point) -> Result<String, AllocError> {
    let mut numbers = String::new(alloc);
    for number in point.as_slice() {
        if !numbers.is_empty() {
            numbers.push(',')?;
        }
        numbers.push_str(number.text(alloc)?.as_str())?;
    }
    Ok(numbers)
}
