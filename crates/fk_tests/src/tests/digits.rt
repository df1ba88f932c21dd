//! Bytes as hexadecimal digits and dots, each of which is four bytes of zeros. Anything else in a text is for reading
//! alone. A function that names a text costs more to check the longer the text is.

use std::alloc::{AllocError, Global};

/// The bytes of a text.
pub fn unhex(alloc: Global, text: &str) -> Result<Vec<u8>, AllocError> {
    let mut digits = Vec::new(alloc);
    for byte in text.as_bytes() {
        if *byte == b'.' {
            digits.extend_from_slice(b"00000000")?;
        } else if byte.is_ascii_hexdigit() {
            digits.push(*byte)?;
        }
    }
    match hex::decode(alloc, digits.as_slice()) {
        Ok(bytes) => Ok(bytes),
        Err(_) => Err(AllocError),
    }
}

/// Whether bytes are those of a text.
pub fn spells(alloc: Global, bytes: &[u8], text: &str) -> bool {
    match unhex(alloc, text) {
        Ok(wanted) => wanted.as_slice() == bytes,
        Err(_) => false,
    }
}
