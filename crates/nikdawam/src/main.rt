// Answers a script of requests to a workbench.
#![tactic(auto)]

use script::session::run_script;
use std::alloc::AllocError;
use std::io::{Read, Write};
use std::process::ExitCode;
use std::{env, fmt, fs, io};

const USAGE: &str = "usage: nikdawam [FILE]

Reads a script from FILE, or from standard input where there is no FILE or it is -,
and writes the answers, one line for each request.

  -h, --help     print this text
  --version      print the version";

// Why the program ends with status 1.
#[derive(Debug, Drop)]
enum Failure {
    Usage { message: &'static str, word: String },
    File { name: String, error: io::Error },
    Io(io::Error),
    NoMemory,
}

impl fmt::Display for Failure {
    fn fmt<W: fmt::Write>(&self, f: &mut fmt::Formatter<W>) -> fmt::Result {
        match self {
            Failure::Usage { message, word } => write!(f, "{message}: {word}\n{USAGE}"),
            Failure::File { name, error } => write!(f, "{name}: {error}"),
            Failure::Io(error) => write!(f, "{error}"),
            Failure::NoMemory => write!(f, "out of memory"),
        }
    }
}

impl From<AllocError> for Failure {
    fn from(_e: AllocError) -> Failure {
        Failure::NoMemory
    }
}

impl From<io::Error> for Failure {
    fn from(error: io::Error) -> Failure {
        Failure::Io(error)
    }
}

#[derive(Drop)]
enum Command {
    Help,
    Version,
    // The script of a file; of standard input for none.
    Run(Option<String>),
}

fn read_args(rt: &HostRuntime) -> Result<Command, Failure> {
    let mut file = None;
    for word in env::args(rt)?.skip(1) {
        match word.as_str() {
            "-h" | "--help" => return Ok(Command::Help),
            "--version" => return Ok(Command::Version),
            "-" => {}
            text if text.starts_with('-') => {
                return Err(Failure::Usage {
                    message: "unknown flag",
                    word,
                });
            }
            _ => {}
        }
        if file.is_some() {
            return Err(Failure::Usage {
                message: "more than one file",
                word,
            });
        }
        file = Some(word);
    }
    Ok(Command::Run(file))
}

fn read_stdin(rt: &HostRuntime) -> io::Result<Vec<u8>> {
    let mut script = Vec::new(rt.alloc());
    rt.stdin().read_to_end(&mut script)?;
    Ok(script)
}

fn read_named(rt: &HostRuntime, name: &str) -> io::Result<Vec<u8>> {
    if name == "-" {
        return read_stdin(rt);
    }
    fs::read(rt, name)
}

fn run(rt: &HostRuntime, file: Option<String>) -> Result<(), Failure> {
    let script = match file {
        Some(name) => {
            read_named(rt, name.as_str()).map_err(|error| Failure::File { name, error })?
        }
        None => read_stdin(rt)?,
    };
    let answers = run_script(rt.alloc(), script.as_slice())?;
    rt.stdout().write_all(answers.as_slice())?;
    Ok(())
}

fn execute(rt: &HostRuntime) -> Result<(), Failure> {
    match read_args(rt)? {
        Command::Help => println!(rt; "{USAGE}")?,
        Command::Version => println!(rt; "nikdawam 0.1.0")?,
        Command::Run(file) => run(rt, file)?,
    }
    Ok(())
}

// Says why. Where the message on an argument cannot be written, why not may still find room.
fn tell(rt: &HostRuntime, failure: &Failure) -> io::Result<()> {
    match (eprintln!(rt; "nikdawam: {failure}"), failure) {
        (Err(error), Failure::Usage { .. } | Failure::File { .. }) => {
            eprintln!(rt; "nikdawam: {error}")
        }
        (told, _) => told,
    }
}

fn main(rt: HostRuntime) -> ExitCode {
    match execute(&rt) {
        Ok(()) => ExitCode::SUCCESS,
        Err(failure) => {
            // Where no message can be written, the status still tells.
            let _ = tell(&rt, &failure);
            ExitCode::FAILURE
        }
    }
}
