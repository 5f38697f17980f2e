use std::alloc::{AllocError, Global};

/// The bytes, escaped as in a table.
pub fn escape(alloc: Global, bytes: &[u8]) -> Result<String, AllocError> {
    let mut text = String::new(alloc);
    for byte in bytes {
        match *byte {
            b'\r' => text.push_str("\\r")?,
            b'\n' => text.push_str("\\n")?,
            b'\t' => text.push_str("\\t")?,
            b'\\' => text.push_str("\\\\")?,
            b'$' => text.push_str("\\$")?,
            0x20..=0x7e => text.push(char::from(*byte))?,
            _ => text.push_str(format!(in alloc; "\\x{byte:02x}")?.as_str())?,
        }
    }
    Ok(text)
}
