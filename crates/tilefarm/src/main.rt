//! The program.
//!
//! What is proved: `program` takes the words from a runtime and calls `farm_main`, and keeps the same of the words that
//! it hands on, or had none (`ProgramKeeps`); which words they are is in no clause. `run_program` makes the real files,
//! streams, store and ports and calls `program`; `main` calls it.
#![tactic(auto)]

mod running;

use crate::running::run_program;
use farm_base::DiskFiles;
use reactor_ports::SocketPorts;
use std::process::ExitCode;
use tile_store::{FileStaging, FileStore, Folder};

fn main(rt: HostRuntime) -> ExitCode {
    let folder = Folder::new();
    let (files, store) = (DiskFiles::new(rt), FileStore::new(rt, &folder));
    run_program(
        &rt,
        files,
        rt.stdout(),
        rt.stderr(),
        store,
        SocketPorts::three(rt.alloc(), rt),
        &FileStaging::new(rt, &folder),
    )
}
