//! Samples.

ghost use Rattle.std.specs.Prelude.{◌≡◌, ◌≤◌, [], ◌∷◌, ◌++◌, IfOk, OnOk};
ghost use Rattle.hub_gen_defs.specs.Network.{sample_files};
ghost use Rattle.hub_gen_defs.specs.Messages.{offers_of};

use crate::NoMemory;
use crate::messages::offers_of;
use crate::network::{agency_txt, calendar_txt, routes_txt, stop_times_txt, stops_txt, trips_txt};
use hub_outside::MemoryFile;
use std::alloc::Global;
use std::marker::Model;

/// Bytes that are offered to a feed. A contract sees it as `Offered` of `hub_gen_defs`.
#[derive(Drop)]
pub struct Offer {
    /// The number of the feed, 0 or 1.
    pub feed: u32,
    /// A message.
    pub bytes: Vec<u8>,
}

impl Model for Offer {
    ghost use Rattle.hub_gen_defs.specs.Messages.{Offered};

    ghost Value = { Offered };

    ghost view = { λ offer. record { feed = offer.feed; bytes = offer.bytes.items } };
}

/// A timetable and messages for it.
#[derive(Drop)]
pub struct Sample {
    /// The files of the timetable, with their paths in the folder `gen`.
    pub files: Vec<MemoryFile>,
    /// The messages, in order.
    pub offers: Vec<Offer>,
}

/// The sample of a seed with 1 to 20,000 trips and 1 to 2,000 messages of 20 entities.
pub fn generate(alloc: Global, seed: u64, trips: u32, messages: u32) -> Result<Sample, NoMemory>
    requires some_trips { 1 ≤ trips }
    requires few_trips { trips ≤ 20000 }
    requires some_messages { 1 ≤ messages }
    requires few_messages { messages ≤ 2000 }
    ensures files { IfOk result (λ sample. sample.files.items ≡ sample_files trips) }
    ensures offers { IfOk result (λ sample. sample.offers.items ≡ offers_of seed trips messages) }
{
    let files = files_of(alloc, trips)?;
    let offers = offers_of(alloc, seed, trips, messages)?;
    Ok(Sample { files, offers })
}

/// The files of a timetable with so many trips.
fn files_of(alloc: Global, trips: u32) -> Result<Vec<MemoryFile>, NoMemory>
    requires { trips ≤ 20000 }
    ensures { IfOk result (λ files. files.items ≡ sample_files trips) }
{
    let mut files = Vec::with_capacity(alloc, 6)?;
    add_file("gen/agency.txt", agency_txt(alloc)?, &mut files)?;
    add_file("gen/stops.txt", stops_txt(alloc)?, &mut files)?;
    add_file("gen/routes.txt", routes_txt(alloc)?, &mut files)?;
    add_file("gen/trips.txt", trips_txt(alloc, trips)?, &mut files)?;
    add_file(
        "gen/stop_times.txt",
        stop_times_txt(alloc, trips)?,
        &mut files,
    )?;
    add_file("gen/calendar.txt", calendar_txt(alloc)?, &mut files)?;
    Ok(files)
}

/// Puts a file behind the others.
fn add_file(path: &str, bytes: Vec<u8>, files: &mut Vec<MemoryFile>) -> Result<(), NoMemory>
    ensures { OnOk result (files.new.items ≡ files.old.items ++ (path.now, bytes.items) ∷ []) }
{
    let path = String::from_str(*files.allocator(), path)?;
    files.push(MemoryFile { path, bytes })?;
    Ok(())
}
