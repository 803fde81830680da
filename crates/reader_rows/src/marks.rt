// The marks of rows for what can't stand in a line.
use std::alloc::{AllocError, Global};

/// A text in which `/` stands for a line feed, `␉` for a tab and `␍` for a carriage return.
pub(crate) fn text_of(alloc: Global, row: &str) -> Result<String, AllocError> {
    let mut text = String::new(alloc);
    for mark in row.chars() {
        text.push(match mark {
            '/' => '\n',
            '␉' => '\t',
            '␍' => '\r',
            other => other,
        })?;
    }
    Ok(text)
}

/// Bytes, where `$` stands for a line feed, `^` for a carriage return, `@` for a byte order mark and `~` for a byte that UTF-8
/// doesn't have.
pub(crate) fn bytes_of(alloc: Global, row: &str) -> Result<Vec<u8>, AllocError> {
    let mut bytes = Vec::new(alloc);
    for byte in row.as_bytes() {
        match *byte {
            b'$' => bytes.push(b'\n')?,
            b'^' => bytes.push(b'\r')?,
            b'~' => bytes.push(0xff)?,
            b'@' => bytes.extend_from_slice("\u{feff}".as_bytes())?,
            other => bytes.push(other)?,
        }
    }
    Ok(bytes)
}
