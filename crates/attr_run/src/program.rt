//! `attr` as a program: over the words after its name, standard input and standard output.

use crate::outcome::Outcome;
use crate::run::attr_main;
use crate::words::Words;
use attr_io::{NoGate, StdSink, StdSource};
use std::rt::Env;
use std::thread::Threads;

/// Makes the run of a program: with the words after its name, standard input and standard output. The contract is
/// that of `attr_main`; a program ends with `exit_of` of the outcome.
pub fn run_program<R: Threads + Sync + Env + AllocGlobal + Input + Print>(rt: &R) -> Outcome {
    match Words::of_program(rt) {
        Ok(words) => {
            let mut source = StdSource::new(rt);
            let mut sink = StdSink::new(rt);
            attr_main(rt, rt.alloc(), &words, &mut source, &mut sink, &NoGate)
        }
        Err(_) => Outcome::out_of_memory(rt.alloc()),
    }
}
