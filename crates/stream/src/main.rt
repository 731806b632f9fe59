// Reads a stream of cases from standard input, each a graph and questions to it, and prints the answers. Where the stream is not of this
// form, the message says where, after the answers to what came before.
#![tactic(auto)]

mod answers;
mod case;
mod fault;
mod kinds;
mod numbers;
mod record;
mod shape;

use fault::Fault;
use shape::answer;
use std::io::{BufWriter, Read};
use std::process::ExitCode;

fn run(rt: &HostRuntime) -> Result<(), Fault> {
    let mut text = Vec::new(rt.alloc());
    rt.stdin().read_to_end(&mut text)?;
    answer(rt.alloc(), &text, BufWriter::new(rt.alloc(), rt.stdout())?)
}

fn main(rt: HostRuntime) -> ExitCode {
    match run(&rt) {
        Ok(()) => ExitCode::SUCCESS,
        Err(fault) => {
            let _ = eprintln!(rt; "stream: {fault}");
            ExitCode::FAILURE
        }
    }
}
