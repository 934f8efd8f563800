// The program: `llama run FILE` does the commands of a script over views of whole-number records, and `llama gen N` those of one
// that is made of the number.
#![tactic(auto)]

mod dataset;
mod laws;
mod llama;
mod number;
mod script;
mod shelf;

use layout_io::{FileShelf, OutSink};
use std::alloc::AllocError as NoMemory;
use std::process::ExitCode;
use std::{env, io};
use worlds::Status;

// The words behind the program's name. Words that are no text are given as no words, which are no form either.
fn words_of(rt: &HostRuntime) -> Result<Vec<String>, NoMemory> {
    match env::args(rt) {
        Ok(words) => words.skip(1).collect(rt.alloc()),
        Err(error) if error.kind() == io::ErrorKind::OutOfMemory => Err(NoMemory),
        Err(_) => Ok(Vec::new(rt.alloc())),
    }
}

fn main(rt: HostRuntime) -> ExitCode {
    let status = match words_of(&rt) {
        Ok(words) => {
            let mut shelf = FileShelf::new(&rt);
            let mut sink = OutSink::new(io::writer(&rt));
            llama::llama(rt.alloc(), words.as_slice(), &mut shelf, &mut sink)
        }
        Err(NoMemory) => Status::NoMemory,
    };
    ExitCode::from(status.number())
}

#[cfg(test)]
mod generated_tests;
#[cfg(test)]
mod tests;
