//! The program `alto`: boots a pack file and obeys what is typed, lists what the pack shows, scavenges or formats it.
//!
//! Come here for what a shell sees of the program: its words, its exit codes, its complaints.
//!
//! Below it stand alto_top, whose contract says what a session shows and leaves and what is listed, and disk_image, whose machine is
//! over one or two pack files, standard input and standard output. Here are the program's edges: what its words ask for
//! (`IsCommandLine`), the machine that they name (`machine_of`), the moment of a reading of the clock (`moment_of`; that it is read
//! once is tested), how a run ends (`IsEnd`), the text of `--help` (tested), and the exit code with what is said on standard error
//! (`end_code`, `end_complaint`).
#![tactic(auto)]

mod clock;
mod command_line;
mod end;
mod help;
mod run;
#[cfg(test)]
mod tests;
mod top;

use end::{exit_code, exit_complaint};
use std::process::ExitCode;

fn main(rt: HostRuntime) -> ExitCode {
    let end = run::run(&rt);
    if let Some(complaint) = exit_complaint(end) {
        // where nothing can be said on standard error either, the exit code says it
        let _ = rt.eprintln(complaint);
    }
    ExitCode::from(exit_code(end))
}
