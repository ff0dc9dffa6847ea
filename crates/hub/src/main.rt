//! The program `hub`: the words of its command line, standard input, output and error, and an exit
//! status.
//!
//! Commands are those of `hub_main`, and the server is `hub_serve::run_serve` over what
//! `serve_on_system` opens by the configuration; their contracts say what is written and with which
//! status it ends. Here the outside is the system's own, and standard error has the lines of
//! `hub_ports`, which nobody waits for (`Unblocked`).
//!
//! Its stored run is `serve` on the messages of data/spool, with no address at which readers come
//! in, so that it ends by itself. One of its feeds finds nobody to connect to, and the listener
//! can't be bound, which standard error tells; so the status is 1.
#![tactic(auto)]

mod server;

use crate::server::serve_on_system;
use exit_status::ExitStatus;
use hub_main::{Prepared, ServeConf, prepare_serve, run_on_system, words_of};
use hub_outside::{StdFiles, StdSink};
use hub_ports::Unblocked;
use hub_words::asks_for_server;
use std::process::ExitCode;
use std::{env, io};

fn main(rt: HostRuntime) -> ExitCode {
    let alloc = rt.alloc();
    let Ok(words) = words_of(alloc, env::args(&rt)) else {
        return ExitCode::from(ExitStatus::NoMemory.code());
    };
    if !asks_for_server(&words) {
        let status = run_on_system(alloc, &words, &rt, rt.stdin(), io::writer(&rt));
        return ExitCode::from(status);
    }
    let mut out = StdSink::new(io::writer(&rt));
    let errors = Unblocked::new(rt.stderr());
    let status = match prepare_serve(alloc, &words, &mut StdFiles::new(&rt), &mut out) {
        Prepared::Ready(ServeConf { plans, conf }) => {
            serve_on_system(&rt, alloc, plans, &conf, &mut out, errors).unwrap_or(
                ExitStatus::NoMemory.code(),
            )
        }
        Prepared::Status(status) => status,
    };
    ExitCode::from(status)
}
