// Runs the schedules of data/ that its arguments name, each from a fresh start: `rt ci` compares the answers with stdout.
#![tactic(auto)]

use std::env::FillError;
use std::fs::File;
use std::io::{ErrorKind, Write};
use std::rt::Env;
use std::{fs, io, str};

// The longest name: a longer one counts as none, which no file has.
const NAME_BYTES: usize = 4096;

fn open_named(rt: &HostRuntime, name: &[u8]) -> io::Result<File> {
    match str::from_utf8(name) {
        Ok(path) => fs::open(rt, path),
        Err(_) => Err(io::Error::from(ErrorKind::InvalidInput)),
    }
}

// A line that says why a file is not opened.
fn tell(rt: &HostRuntime, name: &[u8], why: io::Error) -> io::Result<()> {
    rt.stderr().write_all(name)?;
    eprintln!(rt; ": {why}")
}

fn rehearse_named(rt: &HostRuntime, name: &[u8]) -> io::Result<()> {
    let mut out = rt.stdout();
    out.write_all(b"# ")?;
    out.write_all(name)?;
    out.write_all(b"\n")?;
    match open_named(rt, name) {
        Ok(mut schedule) => {
            stream::run(&mut schedule, &mut out);
            Ok(())
        }
        Err(why) => tell(rt, name, why),
    }
}

fn main(rt: HostRuntime) -> io::Result<()> {
    let mut name = [0; NAME_BYTES];
    for i in 1..usize::MAX {
        match rt.arg(i, &mut name) {
            Ok(length) => rehearse_named(&rt, &name[..length])?,
            Err(FillError::TooLong) => rehearse_named(&rt, b"")?,
            Err(FillError::NotPresent) => return Ok(()),
        }
    }
    Ok(())
}
