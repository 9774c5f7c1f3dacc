//! Runs the program on cases: scenarios with the lines that are to be printed, and tables of what is told of selectors, of
//! keys and of scenarios. Prints which differ, and how many agree.
#![tactic(auto)]

mod expand;
mod folder;
mod report;
mod sheet;
mod stage;
mod told;

use folder::run_folders;
use report::Report;
use std::{env, io};

fn main(rt: HostRuntime) -> io::Result<()> {
    let mut report = Report::default();
    match env::args(&rt)?.nth(1) {
        Some(folder) => run_folders(&rt, folder.as_str(), &mut report)?,
        None => run_folders(&rt, ".", &mut report)?,
    }
    report.finish(&rt)
}
