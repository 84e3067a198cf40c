//! The program `node`: runs a script on the chain database.
#![tactic(auto)]

use std::process::ExitCode;
use std::{env, io};

fn main(rt: HostRuntime) -> io::Result<ExitCode> {
    commands::hold_descriptors(&rt);
    let words: Vec<String> = env::args(&rt)?.collect(rt.alloc())?;
    let (mut input, mut out, mut err) = (rt.stdin(), rt.stdout(), rt.stderr());
    let status = commands::start(&rt, words.as_slice(), &mut input, &mut out, &mut err);
    Ok(ExitCode::from(status))
}
