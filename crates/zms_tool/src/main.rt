//! The program over files: `zms create POOL VDEV`, `zms run POOL` and `zms report POOL`. Each device is a file that is
//! opened when it is first needed and made when it is first written, so a report opens its file to read alone. What a call
//! answers is `zms_top`'s; here it meets the system, whose failures are counted and told as faults.
//!
//! `Faults::noted` counts each failed call by one (`count`, `cause`), from 0 on. The forms over files meet the traits
//! and tell nothing of their bytes. Behind a write that failed nothing more is written to that stream (`FailStop`:
//! `fails`, `stops`). `write_rest` and `after_writing` tell what is lost at the end as a write fault (`lost`). `main`
//! has no contract.
#![tactic(auto)]

mod device;
mod faults;
mod file;
mod files;
mod streams;

use files::PoolFiles;
use std::alloc::Global;
use std::env;
use std::io::ErrorKind;
use std::process::ExitCode;
use streams::{StdinSource, StdoutSink, stdout_sink};
use zms_dev::NoMeet;
use zms_top::{Shipped, Status, pool_name, zms};

/// The words of the command line, and the files and streams that they are answered over.
struct Call {
    words: Vec<String>,
    files: PoolFiles,
    input: StdinSource,
    out: StdoutSink,
}

/// The words after the program's name. Those that are no UTF-8 are outside the grammar.
fn words(alloc: Global, rt: &HostRuntime) -> Result<Vec<String>, Status> {
    match env::args(rt) {
        Ok(args) => args.skip(1).collect(alloc).map_err(|_| Status::Memory),
        Err(error) if error.kind() == ErrorKind::OutOfMemory => Err(Status::Memory),
        Err(_) => Err(Status::Usage),
    }
}

fn open(alloc: Global, rt: HostRuntime) -> Result<Call, Status> {
    let words = words(alloc, &rt)?;
    // Words that name no pool are answered before any file is opened.
    let files = PoolFiles::new(alloc, rt, pool_name(&words).unwrap_or(""));
    match (files, stdout_sink(alloc, rt)) {
        (Ok(files), Ok(out)) => Ok(Call {
            words,
            files,
            input: StdinSource::new(rt),
            out,
        }),
        _ => Err(Status::Memory),
    }
}

fn main(rt: HostRuntime) -> ExitCode {
    let alloc = rt.alloc();
    let status = match open(alloc, rt) {
        Ok(call) => {
            let Call {
                words,
                files,
                mut input,
                mut out,
            } = call;
            let PoolFiles {
                meta,
                devices,
                mut trace,
            } = files;
            let shipped = zms(
                &rt, alloc, &words, &mut input, &mut out, &mut trace, meta, devices, &NoMeet,
            );
            let Shipped {
                status,
                meta: _,
                devices: _,
                journals: _,
                lists: _,
            } = shipped;
            status
        }
        Err(status) => status,
    };
    if status != Status::Done {
        let _ = rt.eprintln(status);
    }
    ExitCode::from(status.exit_code())
}
