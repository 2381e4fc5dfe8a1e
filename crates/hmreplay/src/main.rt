//! `hmreplay run` reads a trace from standard input, runs it and writes one line a step; `hmreplay journal` writes the
//! histories, `hmreplay stats` what they come to, `hmreplay watch` the bytes of live large blocks after each round,
//! `hmreplay check` reads a journal and writes the verdict on it, and `hmreplay stress` runs the stress trace of a
//! seed. It ends with the status of `replay`; with 9 where the words after its name could not be taken from the system,
//! and with 6 where there was no memory for them.
#![tactic(auto)]

use hm_frames::FrameMaker;
use hm_outside::{NoGate, StdinSource, StdoutSink};
use hm_run::{Machine, Status, replay};
use std::io::ErrorKind;
use std::process::ExitCode;
use std::{env, mem};

// The words after the program's name, or the status to end with.
fn take_words(rt: &HostRuntime) -> Result<Vec<String>, Status> {
    let mut words = Vec::new(rt.alloc());
    match env::args(rt) {
        Ok(all) => {
            for word in all.skip(1) {
                words.push(word).map_err(|_| Status::NoMemory)?;
            }
            Ok(words)
        }
        Err(error) => match error.kind() {
            ErrorKind::OutOfMemory => Err(Status::NoMemory),
            _ => Err(Status::NoWords),
        },
    }
}

fn main(rt: HostRuntime) -> ExitCode {
    match take_words(&rt) {
        Err(status) => ExitCode::from(status.code()),
        Ok(words) => {
            let mut source = StdinSource::new(rt.stdin().lock());
            let mut sink = StdoutSink::new(rt.stdout());
            let machine = Machine {
                rt: &rt,
                alloc: rt.alloc(),
                gate: &NoGate,
            };
            let run = replay(machine, &words, &mut source, &mut sink, &mut FrameMaker);
            let status = run.status;
            // The process ends here, and the system takes its memory back at once.
            mem::forget(run);
            ExitCode::from(status)
        }
    }
}
