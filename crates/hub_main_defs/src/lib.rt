//! What the commands of `hub` print, and with which status they end.
//!
//! The definitions compute: `Words` says which lists of words are commands, `Checks` what `check`
//! says of a configuration and its timetables, `Samples` what `gen` says of a sample, and
//! `Commands` puts them together with the replay of a script. They stand on `hub_replay_defs` for
//! the script, on `hub_config_defs` for the configuration, on `sched_load_defs` for the timetables,
//! on `hub_gen_defs` for samples and on `hub_outside` for what files are. The crate has no code.
#![tactic(auto)]
