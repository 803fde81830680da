// The program: the real outside, the words, and the status.
#![tactic(auto)]

use glpsol_cli::{Answer, Reached, Target, out_of_memory, run};
use outside::{RealSink, RealStore};
use std::alloc::Global;
use std::env::{self, Env};
use std::io;
use std::process::ExitCode;

fn main(rt: HostRuntime) -> ExitCode {
    let alloc = rt.alloc();
    let mut out = RealSink::new(&rt);
    // a file that is made must not get the place of a closed output
    if !out.is_open() {
        return ExitCode::from(closed().into_code());
    }
    let code = match words(&rt, alloc) {
        Ok(words) => {
            let mut files = RealStore::new(&rt, alloc);
            run(&rt, alloc, words, &mut files, &mut out).into_code()
        }
        Err(_) => out_of_memory(alloc, &mut out).into_code(),
    };
    ExitCode::from(code)
}

// The answer where the output is closed.
fn closed() -> Answer {
    Answer::WriteFault {
        target: Target::Out,
        reached: Reached::Nothing,
    }
}

// The words after the program's name; none where they are no text, so that the usage is printed.
fn words<R: Env + Alloc<A = Global>>(rt: &R, alloc: Global) -> io::Result<Vec<String>> {
    match words_of(rt, alloc) {
        Ok(words) => Ok(words),
        Err(error) => {
            if error.kind() == io::ErrorKind::OutOfMemory {
                Err(error)
            } else {
                Ok(Vec::new(alloc))
            }
        }
    }
}

fn words_of<R: Env + Alloc<A = Global>>(rt: &R, alloc: Global) -> io::Result<Vec<String>> {
    let mut words = Vec::new(alloc);
    for word in env::args(rt)?.skip(1) {
        words.push(word)?;
    }
    Ok(words)
}
