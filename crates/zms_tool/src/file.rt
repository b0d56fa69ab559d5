//! A file of the system by its path.
ghost use Rattle.std.specs.Prelude.{◌≤◌, length, IfOk};

use std::fs::{File, OpenOptions};
use std::io;
use std::io::ErrorKind;
use std::os::unix::fs::FileExt;
use std::path::Path;

/// A file that is opened when it is first needed, and read as bytes with zeros behind them. One that is missing reads as
/// an empty one, and is made by the first write of a byte. It is never cut, and never grows past what is written.
#[derive(Drop)]
pub struct LazyFile {
    rt: HostRuntime,
    path: String,
    file: Option<File>,
    is_writable: bool,
    // The folder keeps the file's name through a stop.
    is_named: bool,
}

impl LazyFile {
    pub fn new(rt: HostRuntime, path: String) -> Self {
        LazyFile {
            rt,
            path,
            file: None,
            is_writable: false,
            is_named: false,
        }
    }

    fn open_to_read(&mut self) -> io::Result<()> {
        if self.file.is_none() {
            self.file = found(File::open(&self.rt, self.path.as_str()))?;
        }
        Ok(())
    }

    fn open_to_write(&mut self) -> io::Result<()> {
        if !self.is_writable {
            let file = OpenOptions::new()
                .read(true)
                .write(true)
                .create(true)
                .open(&self.rt, self.path.as_str())?;
            self.file = Some(file);
            self.is_writable = true;
        }
        Ok(())
    }

    /// How many bytes it has.
    pub fn size(&mut self) -> io::Result<u64> {
        self.open_to_read()?;
        match &self.file {
            Some(file) => Ok(file.metadata()?.len()),
            None => Ok(0),
        }
    }

    /// Reads from `at` on, and answers how many of the bytes lie before the end.
    pub fn read(&mut self, at: u64, buf: &mut [u8]) -> io::Result<usize>
        ensures { IfOk result (λ n. n ≤ length buf.new) }
    {
        self.open_to_read()?;
        match &self.file {
            Some(file) => read_full(file, at, buf),
            None => Ok(0),
        }
    }

    /// Writes over what stands from `at` on, and past the end.
    pub fn write(&mut self, at: u64, bytes: &[u8]) -> io::Result<()> {
        if bytes.is_empty() {
            return Ok(());
        }
        self.open_to_write()?;
        match &self.file {
            Some(file) => file.write_all_at(bytes, at),
            None => Err(ErrorKind::NotFound.into()),
        }
    }

    /// Waits until what was written, and the name of a new file, are kept through a stop.
    pub fn flush(&mut self) -> io::Result<()> {
        if let Some(file) = &self.file {
            file.sync_all()?;
        }
        if self.is_writable && !self.is_named {
            sync_folder(&self.rt, self.path.as_str())?;
            self.is_named = true;
        }
        Ok(())
    }
}

// None where there is no such file.
fn found(opened: io::Result<File>) -> io::Result<Option<File>> {
    match opened {
        Ok(file) => Ok(Some(file)),
        Err(error) if error.kind() == ErrorKind::NotFound => Ok(None),
        Err(error) => Err(error),
    }
}

// Reads until the buffer is full or the file ends, since one call may give less.
fn read_full(file: &File, at: u64, buf: &mut [u8]) -> io::Result<usize>
    ensures { IfOk result (λ n. n ≤ length buf.new) }
{
    let mut got = 0;
    for _ in 0..u64::MAX {
        if got == buf.len() {
            return Ok(got);
        }
        match file.read_at(&mut buf[got..], at.saturating_add(got as u64)) {
            Ok(0) => return Ok(got),
            Ok(n) => got += n,
            Err(error) if error.kind() == ErrorKind::Interrupted => {}
            Err(error) => return Err(error),
        }
    }
    Err(ErrorKind::Interrupted.into())
}

fn sync_folder(rt: &HostRuntime, path: &str) -> io::Result<()> {
    let folder = match Path::new(path).parent() {
        Some(folder) if !folder.as_str().is_empty() => folder.as_str(),
        _ => ".",
    };
    File::open(rt, folder)?.sync_all()
}
