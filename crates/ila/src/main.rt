//! The program: the command line, files, standard input, output and error, around the one call.
#![tactic(auto)]

mod files;
mod streams;

use files::FileShelf;
use ila_top::{Status, exit_code, ila, plain, report};
use std::process::ExitCode;
use std::{env, io};
use streams::{ReadSource, WriteSink};

fn main(rt: HostRuntime) -> ExitCode {
    let mut errors = WriteSink::new(rt.stderr());
    let status = match words(&rt) {
        Ok(words) => {
            let mut shelf = FileShelf::new(&rt);
            let mut stimulus = ReadSource::new(rt.stdin());
            let mut trace = WriteSink::new(rt.stdout());
            ila(
                rt.alloc(),
                words.as_slice(),
                &mut shelf,
                &mut stimulus,
                &mut trace,
                &mut errors,
            )
        }
        Err(status) => report(&mut errors, plain(status)),
    };
    ExitCode::from(exit_code(&status))
}

// The words of the command line behind the program's name.
fn words(rt: &HostRuntime) -> Result<Vec<String>, Status> {
    match env::args(rt) {
        Ok(words) => match words.skip(1).collect(rt.alloc()) {
            Ok(words) => Ok(words),
            Err(_) => Err(Status::NoMemory),
        },
        Err(e) if e.kind() == io::ErrorKind::OutOfMemory => Err(Status::NoMemory),
        Err(_) => Err(Status::Usage),
    }
}
