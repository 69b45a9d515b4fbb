//! The symbolic analyser of Cedar policies: its words, its files and its output are those of the process.
#![tactic(auto)]

use sc_outside::{RealFiles, RealSink, arguments};
use sc_run::exit_code;
use std::process::ExitCode;

fn main(rt: HostRuntime) -> ExitCode {
    let words = arguments(&rt);
    let mut files = RealFiles::new(&rt);
    let mut out = RealSink::new(&rt);
    exit_code(rt.alloc(), &words, &mut files, &mut out)
}
