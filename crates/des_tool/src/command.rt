//! The command line: what its arguments ask for, the answer, what is written of it, and the status
//! that the program ends with.

mod answers;
mod digits;
mod fault;
mod process;
mod request;
mod status;

pub use answers::answer;
pub use fault::Fault;
pub use process::{run, run_on};
pub use status::show;
