//! Hands its arguments, which neither program accepts, to both, and prints on standard output what they print on standard
//! error. It ends as they do.
#![tactic(auto)]

use std::env;
use std::process::ExitCode;
use sut_check_program::check_program;
use sut_outside::{ConsoleSink, FolderShelf};
use sut_program::balance_program;

fn main(rt: HostRuntime) -> ExitCode {
    let Ok(folder) = String::from_str(rt.alloc(), ".") else {
        return ExitCode::FAILURE;
    };
    let mut shelf = FolderShelf::new(&rt, folder);
    let mut out = ConsoleSink::new(&rt);
    let mut err = ConsoleSink::new(&rt);
    let sut = balance_program(rt.alloc(), env::args(&rt), &mut shelf, &mut out, &mut err);
    let sutcheck = check_program(rt.alloc(), env::args(&rt), &mut shelf, &mut out, &mut err);
    if sut == sutcheck {
        sut
    } else {
        ExitCode::FAILURE
    }
}
