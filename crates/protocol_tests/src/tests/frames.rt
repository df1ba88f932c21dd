//! Frames that are made of zeros, and of hexadecimal digits.

use std::alloc::{AllocError, Global};

/// Appends so many times a byte.
pub fn push_times(out: &mut Vec<u8>, count: usize, byte: u8) -> Result<(), AllocError> {
    for _ in 0..count {
        out.push(byte)?;
    }
    Ok(())
}

/// Appends a number below 2^32 in four bytes.
fn push_number(out: &mut Vec<u8>, number: usize) -> Result<(), AllocError> {
    out.push((number % 256) as u8)?;
    out.push((number / 256 % 256) as u8)?;
    out.push((number / 65_536 % 256) as u8)?;
    out.push(0)?;
    Ok(())
}

/// A frame with a header of so many bytes, which begins with the frame's length and another number.
pub fn framed(
    alloc: Global,
    header: usize,
    number: usize,
    body: &[u8],
) -> Result<Vec<u8>, AllocError> {
    let mut out = Vec::new(alloc);
    push_number(&mut out, header.saturating_add(body.len()))?;
    push_number(&mut out, number)?;
    push_times(&mut out, header.saturating_sub(8), 0)?;
    out.extend_from_slice(body)?;
    Ok(out)
}

/// The bytes of hexadecimal digits. What is no digit is for reading alone.
pub fn unhex(alloc: Global, text: &str) -> Result<Vec<u8>, AllocError> {
    let mut digits = Vec::new(alloc);
    for byte in text.as_bytes() {
        if byte.is_ascii_hexdigit() {
            digits.push(*byte)?;
        }
    }
    match hex::decode(alloc, digits.as_slice()) {
        Ok(bytes) => Ok(bytes),
        Err(_) => Err(AllocError),
    }
}
