// Answers each line of its stdin by a line, so that a table of cases on the language is data: `forms` says what may be asked.
#![tactic(auto)]

mod expressions;
mod forms;
mod repeats;
mod row;
mod tokens;

use std::io;
use std::io::{BufRead, BufReader};

fn main(rt: HostRuntime) -> io::Result<()> {
    for line in BufReader::new(rt.alloc(), rt.reader())?.split(rt.alloc(), b'\n') {
        let answer = forms::answer(rt.alloc(), line?.as_slice())?;
        println!(rt; "{answer}")?;
    }
    Ok(())
}
