use anyhow::{Context, Result};
use std::alloc::{AllocError, Global};

/// The byte that two hexadecimal digits say.
pub fn byte(alloc: Global, digits: &str) -> Result<u8> {
    let bytes = hex::decode(alloc, digits)?;
    bytes.first().copied().context("no byte")
}

/// The bytes of a text, in which a backslash and two hexadecimal digits stand for a byte.
pub fn unescaped(alloc: Global, text: &str) -> Result<Vec<u8>> {
    let mut bytes = Vec::new(alloc);
    for (n, part) in text.split('\\').enumerate() {
        if n == 0 {
            bytes.extend_from_slice(part.as_bytes())?;
            continue;
        }
        let (digits, rest) = part.split_at_checked(2).context("no two digits")?;
        bytes.push(byte(alloc, digits)?)?;
        bytes.extend_from_slice(rest.as_bytes())?;
    }
    Ok(bytes)
}

/// Appends these bytes, those that are no printed characters by a backslash and two digits.
pub fn push_escaped(out: &mut String, bytes: &[u8]) -> Result<(), AllocError> {
    for byte in bytes {
        match *byte {
            b' '..=b'[' | b']'..=b'~' => out.push(char::from(*byte))?,
            _ => write!(out, "\\{byte:02x}")?,
        }
    }
    Ok(())
}

/// Appends each line of these bytes behind a mark, and says where the last one has no line feed.
pub fn push_lines(out: &mut String, mark: char, bytes: &[u8]) -> Result<(), AllocError> {
    for line in bytes.split_inclusive(|byte| *byte == b'\n') {
        match line {
            [text @ .., b'\n'] => {
                write!(out, "  {mark} ")?;
                push_escaped(out, text)?;
            }
            text => {
                write!(out, "  {mark}, without its line feed: ")?;
                push_escaped(out, text)?;
            }
        }
        out.push('\n')?;
    }
    Ok(())
}
