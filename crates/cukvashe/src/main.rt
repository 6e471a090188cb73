//! The program `cukvashe`: DES and triple DES for files and pipes, MACs, and payment formats. Here
//! its parts are joined: `des_arguments` reads the words of the command line, and `des_commands`
//! does what they ask for.
#![tactic(auto)]

use des_arguments::arguments::{command_of, parse};
use des_arguments::usage::show_usage;
use des_commands::{occupy_descriptors, run, tell_fault};
use des_lines::fault::{Fault, FaultKind, Misuse};
use std::process::ExitCode;
use std::{env, io};

fn run_words(rt: &HostRuntime, words: &[&str]) -> u8 {
    match parse(rt.alloc(), words) {
        Ok(matches) => command_of(&matches)
            .map(|command| run(rt, &command))
            .unwrap_or_else(|fault| tell_fault(rt, fault)),
        Err(error) => show_usage(rt, &error, words),
    }
}

// The words of the command line, the program's name first.
fn run_arguments(rt: &HostRuntime) -> io::Result<u8> {
    let arguments: Vec<String> = env::args(rt)?.collect(rt.alloc())?;
    let words: Vec<&str> = arguments
        .iter()
        .map(|argument| argument.as_str())
        .collect(rt.alloc())?;
    Ok(run_words(rt, words.as_slice()))
}

fn run_on_descriptors(rt: &HostRuntime) -> u8 {
    match run_arguments(rt) {
        Ok(status) => status,
        Err(error) if error.kind() == io::ErrorKind::OutOfMemory => {
            tell_fault(rt, Fault::about(FaultKind::Memory, ""))
        }
        Err(_) => tell_fault(rt, Fault::about(FaultKind::Usage(Misuse::NoText), "")),
    }
}

fn main(rt: HostRuntime) -> ExitCode {
    ExitCode::from(match occupy_descriptors(&rt) {
        Ok(()) => run_on_descriptors(&rt),
        Err(fault) => tell_fault(&rt, fault),
    })
}
