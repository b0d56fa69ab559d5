//! The folder of a call: what it is given, and what it is to leave.

use crate::calls::words_of;
use crate::images::{Image, image_of};
use std::io::ErrorKind;
use std::rt::Files;
use std::{fs, io};

/// A call, and what is wanted of it. A file that is missing is empty; `left` that is missing is as before the call.
#[derive(Drop)]
pub struct Asked {
    pub words: Vec<String>,
    pub commands: Vec<u8>,
    pub printed: Vec<u8>,
    pub traced: Vec<u8>,
    pub told: Vec<u8>,
    pub status: u8,
    pub left: Option<Image>,
    pub failing: String,
    pub printed_failed: Vec<u8>,
    pub traced_failed: Vec<u8>,
    pub stops: String,
}

/// The bytes of a file of a folder, if there is one.
fn read_file<R: Files + AllocGlobal>(
    rt: &R,
    folder: &str,
    name: &str,
) -> io::Result<Option<Vec<u8>>> {
    let path = format!(in rt.alloc(); "{folder}/{name}")?;
    match fs::read(rt, path.as_str()) {
        Ok(bytes) => Ok(Some(bytes)),
        Err(error) if error.kind() == ErrorKind::NotFound => Ok(None),
        Err(error) => Err(error),
    }
}

/// The bytes of a file, none of them where it is missing.
fn bytes<R: Files + AllocGlobal>(rt: &R, folder: &str, name: &str) -> io::Result<Vec<u8>> {
    match read_file(rt, folder, name)? {
        Some(bytes) => Ok(bytes),
        None => Ok(Vec::new(rt.alloc())),
    }
}

/// The text of a file, empty where it is missing.
fn text<R: Files + AllocGlobal>(rt: &R, folder: &str, name: &str) -> io::Result<String> {
    match String::from_utf8(bytes(rt, folder, name)?) {
        Ok(text) => Ok(text),
        Err(_) => Err(ErrorKind::InvalidData.into()),
    }
}

/// The bytes of a device that a file says, if there is one.
pub fn image_file<R: Files + AllocGlobal>(
    rt: &R,
    folder: &str,
    name: &str,
) -> io::Result<Option<Image>> {
    if read_file(rt, folder, name)?.is_none() {
        return Ok(None);
    }
    let said = text(rt, folder, name)?;
    Ok(Some(image_of(rt.alloc(), said.as_str())?))
}

/// The folder of a call, if there is one: it has a file `words`.
pub fn read_call<R: Files + AllocGlobal>(rt: &R, folder: &str) -> io::Result<Option<Asked>> {
    if read_file(rt, folder, "words")?.is_none() {
        return Ok(None);
    }
    let words = text(rt, folder, "words")?;
    let status = text(rt, folder, "status")?;
    Ok(Some(Asked {
        words: words_of(rt.alloc(), words.as_str())?,
        commands: bytes(rt, folder, "commands")?,
        printed: bytes(rt, folder, "printed")?,
        traced: bytes(rt, folder, "traced")?,
        told: bytes(rt, folder, "told")?,
        status: status.as_str().trim_end().parse::<u8>().unwrap_or(0),
        left: image_file(rt, folder, "left")?,
        failing: text(rt, folder, "failing")?,
        printed_failed: bytes(rt, folder, "printed_failed")?,
        traced_failed: bytes(rt, folder, "traced_failed")?,
        stops: text(rt, folder, "stops")?,
    }))
}
