//! The program `adb`.
#![tactic(auto)]

mod ending;
mod opening;
mod running;

use dir_io::FolderDir;
use std::env;
use std::io::{self, BufReader, BufWriter, ErrorKind};
use std::process::ExitCode;
use stream_io::{StdSink, StdSource};

/// The status of want of memory.
const NO_MEMORY: u8 = 6;

/// So many bytes of the journal are written at once.
const OUTPUT_BUFFER: usize = 65_536;

// The words of the command line, without the program's name. Words that aren't UTF-8 are none.
fn words(rt: &HostRuntime) -> io::Result<Vec<String>> {
    let mut words = Vec::new(rt.alloc());
    let given = match env::args(rt) {
        Err(error) if error.kind() == ErrorKind::InvalidData => return Ok(words),
        given => given?,
    };
    for word in given.skip(1) {
        words.push(word)?;
    }
    Ok(words)
}

// Runs the program over the standard streams, buffered both ways.
fn run(rt: &HostRuntime) -> io::Result<u8> {
    let words = words(rt)?;
    let mut source = StdSource::new(BufReader::new(rt.alloc(), rt.reader())?);
    let output = BufWriter::with_capacity(rt.alloc(), OUTPUT_BUFFER, io::writer(rt))?;
    let mut sink = StdSink::new(output);
    let mut dir = FolderDir::new(rt, "")?;
    Ok(running::run(rt, &words, &mut source, &mut sink, &mut dir))
}

fn main(rt: HostRuntime) -> ExitCode {
    ExitCode::from(run(&rt).unwrap_or(NO_MEMORY))
}

#[cfg(test)]
mod tests;
