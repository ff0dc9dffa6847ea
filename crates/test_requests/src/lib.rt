//! Tests of requests and responses: heads, targets, whole connections, a door with its links, and
//! what a client gets that asks for what changed.
//!
//! They stand over the public contracts of `http_req`, `http_routes`, `delta_out`, `http_serve` and
//! `http_door`, and their hub holds everything in memory. Each test is proved safe, and then run:
//! it compares with whole responses as they were written by hand, and fails reads and writes in
//! turn.
#![tactic(auto)]

#[cfg(test)]
mod connections;
#[cfg(test)]
mod doors;
#[cfg(test)]
mod followed;
#[cfg(test)]
mod given;
#[cfg(test)]
mod heads;
#[cfg(test)]
mod letting_go;
#[cfg(test)]
mod served;
#[cfg(test)]
mod targets;
