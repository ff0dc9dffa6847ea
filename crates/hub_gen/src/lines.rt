//! Lines of the files of a timetable.

ghost use Rattle.std.specs.Prelude.{◌≡◌, ◌<◌, ◌++◌, OnOk};
ghost use Rattle.std.specs.List.{flat_map};
ghost use Rattle.hub_gen_defs.specs.Network.{route_line, stop_line, stop_time_line, time_text, trip_line};
ghost use Rattle.hub_gen.specs.Lines.{place_front, route_cells, stop_cells, times_end, trip_cells};

use crate::NoMemory;
use itoa::Buffer;

/// How many routes there are.
pub(crate) const ROUTES: u32 = 10;

/// How many stops there are.
pub(crate) const STOPS: u32 = 100;

/// How many places a trip has.
pub(crate) const PLACES: u32 = 20;

/// The seconds of a day.
const DAY: u32 = 86_400;

/// Appends texts, one behind another, or as much of them as memory allows.
fn push_texts(texts: &[&str], out: &mut Vec<u8>) -> Result<(), NoMemory>
    ensures { OnOk result
        (out.new.items ≡ out.old.items ++ flat_map (λ text. text.now) texts.now) }
{
    for text in texts {
        out.extend_from_slice(text.as_bytes())?;
    }
    Ok(())
}

/// Appends the line of a stop.
pub(crate) fn push_stop(stop: u32, out: &mut Vec<u8>) -> Result<(), NoMemory>
    ensures { OnOk result (out.new.items ≡ out.old.items ++ stop_line stop) }
{
    push_stop_cells(Buffer::new().format(stop), out)
}

/// The same of its number's digits.
fn push_stop_cells<'a>(number: &'a str, out: &mut Vec<u8>) -> Result<(), NoMemory>
    ensures { OnOk result (out.new.items ≡ out.old.items ++ stop_cells number.now) }
{
    push_texts(&["S", number, ",S", number, ",,\n"], out)
}

/// Appends the line of a route.
pub(crate) fn push_route(route: u32, out: &mut Vec<u8>) -> Result<(), NoMemory>
    ensures { OnOk result (out.new.items ≡ out.old.items ++ route_line route) }
{
    push_route_cells(Buffer::new().format(route), out)
}

/// The same of its number's digits.
fn push_route_cells<'a>(number: &'a str, out: &mut Vec<u8>) -> Result<(), NoMemory>
    ensures { OnOk result (out.new.items ≡ out.old.items ++ route_cells number.now) }
{
    push_texts(&["R", number, ",A,R", number, ",,3\n"], out)
}

/// Appends the line of a trip.
pub(crate) fn push_trip(trip: u32, out: &mut Vec<u8>) -> Result<(), NoMemory>
    ensures { OnOk result (out.new.items ≡ out.old.items ++ trip_line trip) }
{
    let (mut number, mut route) = (Buffer::new(), Buffer::new());
    push_trip_cells(number.format(trip), route.format(trip % ROUTES), out)
}

/// The same of the digits of its number and its route's.
fn push_trip_cells<'a>(number: &'a str, route: &'a str, out: &mut Vec<u8>) -> Result<(), NoMemory>
    ensures { OnOk result (out.new.items ≡ out.old.items ++ trip_cells number.now route.now) }
{
    push_texts(&["T", number, ",R", route, ",X,,0\n"], out)
}

/// Appends the line of a place of a trip, of their numbers from 0.
pub(crate) fn push_stop_time(trip: u32, place: u32, out: &mut Vec<u8>) -> Result<(), NoMemory>
    requires trip { trip < 20000 }
    requires place { place < 20 }
    ensures { OnOk result (out.new.items ≡ out.old.items ++ stop_time_line trip place) }
{
    let stop = (7 * trip + place * (1 + trip % 3)) % STOPS;
    let (mut number, mut at, mut sequence) = (Buffer::new(), Buffer::new(), Buffer::new());
    push_place(
        number.format(trip),
        at.format(stop),
        sequence.format(place + 1),
        out,
    )?;
    push_times(60 * trip % DAY + 120 * place, out)
}

/// Appends the front of a place's line, of the digits of the trip's and the stop's number and of
/// the stop_sequence.
fn push_place<'a>(
    trip: &'a str,
    stop: &'a str,
    sequence: &'a str,
    out: &mut Vec<u8>,
) -> Result<(), NoMemory>
    ensures { OnOk result
        (out.new.items ≡ out.old.items ++ place_front trip.now stop.now sequence.now) }
{
    push_texts(&["T", trip, ",S", stop, ",", sequence, ","], out)
}

/// Appends the rest of it: an arrival and a departure at that second, and a pickup_type.
fn push_times(seconds: u32, out: &mut Vec<u8>) -> Result<(), NoMemory>
    requires { seconds < 360_000 }
    ensures { OnOk result (out.new.items ≡ out.old.items ++ times_end seconds) }
{
    let text = time_text(seconds);
    out.extend_from_slice(&text)?;
    out.push(b',')?;
    out.extend_from_slice(&text)?;
    out.extend_from_slice(b",0\n")
}

/// A time as HH:MM:SS.
#[tactic(auto, unfolding(hub_gen_defs::specs::Network::time_text))]
fn time_text(seconds: u32) -> [u8; 8]
    requires { seconds < 360_000 }
    ensures { result ≡ time_text seconds }
{
    let hours = seconds / 3600;
    let minutes = seconds / 60 % 60;
    let seconds = seconds % 60;
    [
        b'0' + (hours / 10) as u8,
        b'0' + (hours % 10) as u8,
        b':',
        b'0' + (minutes / 10) as u8,
        b'0' + (minutes % 10) as u8,
        b':',
        b'0' + (seconds / 10) as u8,
        b'0' + (seconds % 10) as u8,
    ]
}
