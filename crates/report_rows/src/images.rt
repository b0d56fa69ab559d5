//! The bytes of a device, read from a text that leaves out what is zeros.

use hex::FromHex;
use std::alloc::{AllocError, Global};

/// More bytes than any device of a row has.
const MOST_BYTES: usize = 16_777_216;

/// Puts bytes at a place, with zeros before it where the image ends earlier.
fn put(image: &mut Vec<u8>, place: usize, piece: &[u8]) -> Result<(), AllocError> {
    let end = place.saturating_add(piece.len());
    if end > MOST_BYTES {
        return Ok(());
    }
    if image.len() < end {
        image.resize(end, 0)?;
    }
    if place <= end && end <= image.len() && end - place == piece.len() {
        image[place..end].copy_from_slice(piece);
    }
    Ok(())
}

/// Puts what a line says.
fn put_line(alloc: Global, image: &mut Vec<u8>, line: &str) -> Result<(), AllocError> {
    let Some((name, said)) = line.split_once(' ') else {
        return Ok(());
    };
    if name == "length" {
        let length = said.parse::<usize>().unwrap_or(0);
        return put(image, length, &[]);
    }
    let place = name
        .trim_end_matches(':')
        .parse::<usize>()
        .unwrap_or(MOST_BYTES);
    let mut piece = Vec::new(alloc);
    for digits in said.as_bytes().chunks(2) {
        if let Ok(byte) = <[u8; 1] as FromHex>::from_hex(digits) {
            piece.push(byte[0])?;
        }
    }
    put(image, place, &piece)
}

/// The bytes that a text says.
pub fn image_of(alloc: Global, text: &str) -> Result<Vec<u8>, AllocError> {
    let mut image = Vec::new(alloc);
    for line in text.lines() {
        put_line(alloc, &mut image, line)?;
    }
    Ok(image)
}
