//! Standard input and output, and a file that is written from its start.
ghost use Rattle.std.specs.Prelude.{◌≡◌, ◌≤◌, true, length, take, IfOk, OnErr, IsErr};
ghost use Rattle.std.specs.Io.KnownBytes.{Keeps, Appends};

use crate::faults::Faults;
use std::alloc::{AllocError, Global};
use std::fs::File;
use std::io;
use std::io::{BufWriter, ErrorKind, IsTerminal, Read, Write};
use zms_dev::{Failed, Sink, Source};

/// Standard input. It does not tell the bytes that it has left.
#[derive(Drop)]
pub struct StdinSource {
    rt: HostRuntime,
    faults: Faults,
}

impl StdinSource {
    pub fn new(rt: HostRuntime) -> Self
        ensures { result.faults.count ≡ 0 }
    {
        StdinSource {
            rt,
            faults: Faults::NONE,
        }
    }
}

impl Source for StdinSource {
    ghost use Rattle.std.specs.Prelude.{None};

    ghost state = { λ s. record { left = None; faults = s.faults.count } };

    fn read(&mut self, buf: &mut [u8]) -> Result<usize, Failed> {
        self.faults.noted(read_some(&mut self.rt.stdin(), buf))
    }
}

/// A writer that fails for good with its first failure, so that nothing is written behind what was lost.
#[derive(Drop)]
pub struct FailStop<W> {
    inner: W,
    has_failed: bool,
}

impl<W> FailStop<W> {
    fn new(inner: W) -> Self {
        FailStop {
            inner,
            has_failed: false,
        }
    }
}

impl<W: Write> Write for FailStop<W> {
    fn write(&mut self, bytes: &[u8]) -> io::Result<usize>
        ensures bound { IfOk result (λ n. n ≤ length bytes.now) }
        ensures fails { OnErr result (self.new.has_failed ≡ true) }
        ensures stops { self.old.has_failed ≡ true → (self.new ≡ self.old) × IsErr result }
    {
        if self.has_failed {
            return Err(ErrorKind::BrokenPipe.into());
        }
        let taken = write_some(&mut self.inner, bytes);
        self.has_failed = taken.is_err();
        taken
    }

    fn flush(&mut self) -> io::Result<()>
        ensures fails { OnErr result (self.new.has_failed ≡ true) }
        ensures stops { self.old.has_failed ≡ true → (self.new ≡ self.old) × IsErr result }
    {
        if self.has_failed {
            return Err(ErrorKind::BrokenPipe.into());
        }
        let flushed = self.inner.flush();
        self.has_failed = flushed.is_err();
        flushed
    }
}

/// A file that is made, or written anew, with the first bytes.
#[derive(Drop)]
pub struct NewFile {
    rt: HostRuntime,
    path: String,
    file: Option<File>,
}

impl Write for NewFile {
    fn write(&mut self, bytes: &[u8]) -> io::Result<usize> {
        if self.file.is_none() && !bytes.is_empty() {
            self.file = Some(File::create(&self.rt, self.path.as_str())?);
        }
        match &mut self.file {
            Some(file) => file.write(bytes),
            None => Ok(0),
        }
    }

    fn flush(&mut self) -> io::Result<()> {
        match &mut self.file {
            Some(file) => file.flush(),
            None => Ok(()),
        }
    }
}

/// How many bytes a sink hands on at once.
const BLOCK: usize = 65_536;

/// A writer through a buffer, which is written out where it is full, and, for a terminal, with each line's end. After a
/// write that failed nothing more is written. It does not tell the bytes that it has taken.
#[derive(Drop)]
pub struct StreamSink<W: Write + Drop> {
    out: BufWriter<FailStop<W>>,
    faults: Faults,
    by_line: bool,
}

impl<W: Write + Drop> StreamSink<W> {
    // Takes the memory of the buffer, which is the one thing that may fail.
    fn new(alloc: Global, inner: W, by_line: bool) -> Result<Self, AllocError>
        ensures { IfOk result (λ s. s.faults.count ≡ 0) }
    {
        match BufWriter::with_capacity(alloc, BLOCK, FailStop::new(inner)) {
            Ok(out) => Ok(StreamSink {
                out,
                faults: Faults::NONE,
                by_line,
            }),
            Err(_) => Err(AllocError),
        }
    }
}

/// Standard output.
pub type StdoutSink = StreamSink<std::rt::Stdout>;

/// A file that is made, or written anew, when the first bytes leave the buffer.
pub type FileSink = StreamSink<NewFile>;

/// A sink to standard output, in which a terminal sees each line as it comes.
pub fn stdout_sink(alloc: Global, rt: HostRuntime) -> Result<StdoutSink, AllocError>
    ensures { IfOk result (λ s. s.faults.count ≡ 0) }
{
    let out = rt.stdout();
    let by_line = out.is_terminal();
    StreamSink::new(alloc, out, by_line)
}

/// A sink to the file at this path. Where nothing is taken, no file is made.
pub fn file_sink(alloc: Global, rt: HostRuntime, path: String) -> Result<FileSink, AllocError>
    ensures { IfOk result (λ s. s.faults.count ≡ 0) }
{
    let file = NewFile {
        rt,
        path,
        file: None,
    };
    StreamSink::new(alloc, file, false)
}

impl<W: Write + Drop> Sink for StreamSink<W> {
    ghost use Rattle.std.specs.Prelude.{None};

    ghost state = { λ s. record { taken = None; handed = None; faults = s.faults.count } };

    fn write(&mut self, bytes: &[u8]) -> Result<usize, Failed> {
        self.faults
            .noted(write_through(&mut self.out, bytes, self.by_line))
    }

    fn flush(&mut self) -> Result<(), Failed> {
        self.faults.noted(self.out.flush())
    }
}

// Reads again where a signal interrupts the call.
fn read_some<R: Read>(input: &mut R, buf: &mut [u8]) -> io::Result<usize>
    ensures { IfOk result (λ n. n ≤ length buf.new) }
{
    for _ in 0..u64::MAX {
        match input.read(buf) {
            Err(error) if error.kind() == ErrorKind::Interrupted => {}
            answer => return answer,
        }
    }
    Err(ErrorKind::Interrupted.into())
}

// Writes again where a signal interrupts the call. To take nothing is an error.
fn write_some<W: Write>(output: &mut W, bytes: &[u8]) -> io::Result<usize>
    ensures bound { IfOk result (λ n. n ≤ length bytes.now) }
    ensures none { IfOk result (λ n. n ≡ 0 → length bytes.now ≡ 0) }
    ensures taken { IfOk result (λ n. Appends (W.contents output.old) (W.contents output.new) (take n bytes.now)) }
    ensures err { OnErr result (Keeps (W.contents output.old) (W.contents output.new)) }
{
    for _ in 0..u64::MAX {
        match output.write(bytes) {
            Ok(0) if !bytes.is_empty() => return Err(ErrorKind::WriteZero.into()),
            Err(error) if error.kind() == ErrorKind::Interrupted => {}
            answer => return answer,
        }
    }
    Err(ErrorKind::Interrupted.into())
}

// Writes through a buffer, which is written out where this is wanted and the bytes that it took end a line.
fn write_through<W: Write>(output: &mut W, bytes: &[u8], by_line: bool) -> io::Result<usize>
    ensures bound { IfOk result (λ n. n ≤ length bytes.now) }
    ensures none { IfOk result (λ n. n ≡ 0 → length bytes.now ≡ 0) }
    ensures taken { IfOk result (λ n. Appends (W.contents output.old) (W.contents output.new) (take n bytes.now)) }
{
    let taken = write_some(output, bytes)?;
    if by_line && bytes[..taken].ends_with(b"\n") {
        output.flush()?;
    }
    Ok(taken)
}
