// Measures what no script reaches: the words name what is done and how often, and its checksum is printed.
#![tactic(auto)]

mod copying;
mod count;
mod evaluation;
mod expr;
mod fault;
mod formula;
mod kernels;
mod mode;
mod record;
mod sample;
mod table;
mod tables;

use crate::fault::BenchFault;
use crate::mode::checksum;
use std::marker::Brand;
use std::process::ExitCode;
use std::sync::ledger::Blank;
use std::{env, io};

const USAGE: u8 = 2;

const FAULT: u8 = 1;

fn main(rt: HostRuntime) -> io::Result<ExitCode> {
    let words: Vec<String> = env::args(&rt)?.skip(1).collect(rt.alloc())?;
    match checksum::<Brand>(rt.alloc(), words.as_slice(), Blank::new(1)) {
        Ok(checksum) => println!(rt; "{checksum}")?,
        Err(BenchFault::Words) => {
            println!(rt;
                "usage: bench_layouts eval ROWS | table FORM GRID ROWS SETS GETS | copy FORM FORM ROWS AGAIN | kernel NAME FORM LANES ROWS ROUNDS"
            )?;
            return Ok(ExitCode::from(USAGE));
        }
        Err(fault) => {
            println!(rt; "{fault:?}")?;
            return Ok(ExitCode::from(FAULT));
        }
    }
    Ok(ExitCode::SUCCESS)
}
