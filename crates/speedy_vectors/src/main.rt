//! The program that answers lines, of standard input on standard output.
#![tactic(auto)]

#[cfg(test)]
mod tests;
#[cfg(test)]
mod tests_bulk;
#[cfg(test)]
mod tests_own_types;
#[cfg(test)]
mod tests_tree;

use speedy::device::{Counted, Sink};
use speedy_lines::run;
use std::io::{self, BufWriter};
use std::process::ExitCode;

fn main(rt: HostRuntime) -> ExitCode {
    let alloc = rt.alloc();
    let Ok(writer) = BufWriter::new(alloc, io::writer(&rt)) else {
        return ExitCode::FAILURE;
    };
    let mut input = Counted::new(rt.stdin());
    let mut output = Counted::new(writer);
    match run(alloc, &mut input, &mut output) {
        Ok(()) => ExitCode::SUCCESS,
        Err(_) => {
            // What was answered before the error is passed on if that still goes.
            let _ = output.flush();
            ExitCode::FAILURE
        }
    }
}
