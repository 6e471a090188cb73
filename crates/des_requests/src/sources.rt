//! Where inputs are, by the paths of a command line.

ghost use Rattle.std.specs.Prelude.{Some};
ghost use Rattle.des_requests.specs.Inputs.{IsInput};

use des_lines::source::Source;

/// The file of a path, or standard input, by the names that the system gives it.
pub fn file_of<'a>(path: &'a str) -> Source<'a>
    ensures { IsInput (Some path.entry) result }
{
    match path {
        "-" | "/dev/stdin" | "/dev/fd/0" | "/proc/self/fd/0" => Source::StandardInput,
        _ => Source::File(path),
    }
}

/// Where the input is: in a file, or on standard input, as `-` or no path asks for.
pub fn input_of<'a>(path: Option<&'a str>) -> Source<'a>
    ensures { IsInput path.entry result }
{
    match path {
        Some(path) => file_of(path),
        None => Source::StandardInput,
    }
}
