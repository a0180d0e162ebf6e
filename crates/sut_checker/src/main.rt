//! The program `sutcheck`: checks what stands written in the current folder, without a solver.
#![tactic(auto)]

use std::env;
use std::process::ExitCode;
use sut_check::CheckStatus;
use sut_check_program::{check_program, end};
use sut_outside::{ConsoleSink, FolderShelf};

fn main(rt: HostRuntime) -> ExitCode {
    let errors = rt.stderr();
    let mut out = ConsoleSink::new(&rt);
    let mut err = ConsoleSink::new(&errors);
    let Ok(folder) = String::from_str(rt.alloc(), ".") else {
        return end(rt.alloc(), CheckStatus::NoMemory, &mut err);
    };
    let mut shelf = FolderShelf::new(&rt, folder);
    check_program(rt.alloc(), env::args(&rt), &mut shelf, &mut out, &mut err)
}
