//! The program `attr`: the words after its name, standard input, standard output, and the run.
#![tactic(auto)]

use attr_run::{exit_of, run_program};
use std::process::ExitCode;

fn main(rt: HostRuntime) -> ExitCode {
    exit_of(&run_program(&rt))
}
