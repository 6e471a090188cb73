//! The program `des_tool`: it enciphers and deciphers blocks, and tests keys, that its arguments
//! write in hexadecimal digits.
#![tactic(auto)]

mod command;

use std::env;
use std::process::ExitCode;

fn main(rt: HostRuntime) -> ExitCode {
    command::run(
        rt.alloc(),
        env::args(&rt),
        &mut rt.stdout(),
        &mut rt.stderr(),
    )
}
