//! The console: reads a script from standard input, one command a line, and prints one line for each answer.
#![tactic(auto)]

mod command;
mod draft;
mod printer;
mod procedure;
mod say;
mod session;
mod telling;

use printer::Printer;
use session::Session;
use std::io::{BufRead, BufReader};
use std::str;

fn run_script(rt: &HostRuntime) -> anyhow::Result<()> {
    let heap = rt.alloc();
    let mut input = BufReader::new(heap, rt.stdin())?;
    let mut session = Session::new(heap)?;
    let mut bytes: Vec<u8> = Vec::new(heap);
    // Counted, since `lines()` would end at a line that is no text, and the line after the last has a number too.
    for line in 1..usize::MAX {
        let printer = Printer { rt, line };
        bytes.clear();
        if input.read_until(b'\n', &mut bytes)? == 0 {
            session.finish(printer)?;
            break;
        }
        match str::from_utf8(&bytes) {
            Ok(text) => session.step(printer, text)?,
            Err(_) => printer.bad("the line is no text")?,
        }
    }
    Ok(())
}

fn main(rt: HostRuntime) -> anyhow::Result<()> {
    run_script(&rt)
}
