//! `anari_replay` replays a JSON trace of rendering calls, and writes its images, its journal or a summary.
#![tactic(auto)]

mod fault;
mod outcome;
mod replay;
#[cfg(test)]
mod rows;
#[cfg(test)]
mod tests;
mod words;

use fault::Fault;
use outcome::Outcome;
use replay::run_plain;
use replay_io::{HostSink, HostSource};
use std::io;
use std::process::ExitCode;
use words::program_words;

fn main(rt: HostRuntime) -> io::Result<ExitCode> {
    let outcome = match program_words(&rt) {
        Ok(words) => {
            let mut source = HostSource::new(rt.reader());
            let mut sink = HostSink::new(io::writer(&rt));
            run_plain(rt.alloc(), words.as_slice(), &mut source, &mut sink)
        }
        Err(fault) => Outcome::without_replay(rt.alloc(), Err(fault)),
    };
    if let Some(fault) = outcome.complaint() {
        // The status tells it too, so a closed standard error changes nothing.
        let _ = eprintln!(rt; "{fault}");
    }
    Ok(ExitCode::from(outcome.status))
}
