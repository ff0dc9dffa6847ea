//! The exit statuses of the program `hub`, those of its commands and that of its server.
//!
//! [`ExitStatus`] has one for each way in which a run ends, and says when it comes; `specs/Codes`
//! says which number each is to the system. Contracts of commands and of the server speak of these
//! numbers by `code_of`, and their code passes the enum round. The crate stands on nothing of this
//! repository.
#![tactic(auto)]

mod status;

pub use status::ExitStatus;
