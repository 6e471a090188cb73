//! What a command asks for is done.

mod calculations;
mod lines;
mod mac;
mod private_keys;
mod streams;

use crate::descriptors::{NULL_DEVICE, occupy_closed};
use crate::outputs::targets::write_fault;
use calculations::{calculation_status, parts_status};
use des_lines::fault::Fault;
use des_lines::report::tell;
use des_lines::sentences::English;
use des_requests::command::Command;
use lines::lines_status;
use mac::mac_status;
use private_keys::private_key_status;
use streams::stream_status;

/// Writes the line of a fault, and returns its status.
pub fn tell_fault(rt: &HostRuntime, fault: Fault) -> u8 {
    tell::<English, _>(fault, &mut rt.stderr())
}

/// Opens the null device on the standard descriptors that are closed, so that no file takes their
/// numbers.
pub fn occupy_descriptors<'a>(rt: &HostRuntime) -> Result<(), Fault<'a>> {
    occupy_closed(rt).map_err(|error| Fault::about(write_fault(error), NULL_DEVICE))
}

// Runs a command, and returns its status, or the fault that ended it.
fn status_of<'m, 'a>(rt: &HostRuntime, command: &Command<'m, 'a>) -> Result<u8, Fault<'a>> {
    match *command {
        Command::Calculate(request) => calculation_status(rt, &request),
        Command::CombineFiles(paths) => parts_status(rt, paths),
        Command::Mac(request) => mac_status(rt, &request),
        Command::Stream(request) => stream_status(rt, &request),
        Command::PrivateKey(request) => private_key_status(rt, &request),
        Command::Lines(request) => lines_status(rt, &request),
    }
}

/// Runs a command, and returns the status that the program ends with.
pub fn run(rt: &HostRuntime, command: &Command) -> u8 {
    status_of(rt, command).unwrap_or_else(|fault| tell_fault(rt, fault))
}
