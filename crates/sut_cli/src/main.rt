//! The program `sut`: runs the command that its words name, over the files of the current folder.
#![tactic(auto)]

use std::env;
use std::process::ExitCode;
use sut_outside::{ConsoleSink, FolderShelf};
use sut_program::{balance_program, end};
use sut_status::Status;

fn main(rt: HostRuntime) -> ExitCode {
    let errors = rt.stderr();
    let mut out = ConsoleSink::new(&rt);
    let mut err = ConsoleSink::new(&errors);
    let Ok(folder) = String::from_str(rt.alloc(), ".") else {
        return end(rt.alloc(), Status::NoMemory, &mut err);
    };
    let mut shelf = FolderShelf::new(&rt, folder);
    balance_program(rt.alloc(), env::args(&rt), &mut shelf, &mut out, &mut err)
}
