// The lane program: answers the script in the file that its first argument names, or in standard input where it has none.
#![tactic(auto)]

use session::console::Source;
use std::env::{Env, FillError};
use std::{fs, io, str};

fn main(rt: HostRuntime) -> io::Result<()> {
    let mut path = [0u8; 4096];
    let n = match rt.arg(1, &mut path) {
        Ok(n) => n,
        Err(FillError::NotPresent) => {
            return session::run(Source::Standard(rt.stdin()), rt.stdout());
        }
        Err(FillError::TooLong) => return eprintln!(rt; "path: File name too long"),
    };
    let Ok(path) = str::from_utf8(&path[..n]) else {
        return eprintln!(rt; "path: not UTF-8");
    };
    match fs::open(&rt, path) {
        Ok(file) => session::run(Source::Named(file), rt.stdout()),
        Err(e) => eprintln!(rt; "{path}: {e}"),
    }
}
