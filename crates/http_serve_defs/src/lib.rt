//! The words for what is answered over HTTP: the response to each item of a connection, of what all
//! feeds say at a moment.
//!
//! `specs/Questions` says which question a query asks; `specs/Answers` which status and body answer
//! an item, and the bytes of the whole response; `specs/Connections` what is written on a whole
//! connection at one moment. They compute, and `proofs/CityResponses` computes them on the small
//! city. `proofs/QueryLaws` shows that what a request asks is within the ranges
//! that may be asked for.
//!
//! The crate has no code. It stands on `http_defs` for requests and responses, and on
//! `board_text_defs` for the bodies of answers.
#![tactic(auto)]
