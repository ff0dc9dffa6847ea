//! The segments of a path.
ghost use Rattle.std.specs.Prelude.{◌≡◌, slice_get, IfOk};
ghost use Rattle.std.specs.List.{slice_split};
ghost use Rattle.std.specs.Option.{option_map};
ghost use Rattle.http_defs.specs.Targets.{is_slash, text_at, text_of};

use crate::NoMemory;
use percent_encoding::{DecodeError, percent_decode};
use rt_types::Text;
use std::alloc::Global;

/// The text of the segment at a place of a path, or none where its escapes stand for no text. The
/// segment in front of the first slash has place 0.
#[tactic(auto, unfolding(http_defs::specs::Targets::text_at))]
pub(crate) fn text_at(alloc: Global, path: &str, place: usize) -> Result<Option<Text>, NoMemory>
    ensures { IfOk result (λ text. text ≡ text_at path.now place) }
{
    match segment_at(path, place) {
        Some(segment) => text_of(alloc, segment.as_bytes()),
        None => Ok(None),
    }
}

fn segment_at(path: &str, place: usize) -> Option<&str>
    ensures { option_map (λ segment. segment.now) result
        ≡ slice_get (slice_split is_slash path.entry.now) place }
{
    path.split('/').nth(place)
}

/// The text that a segment stands for.
fn text_of(alloc: Global, segment: &[u8]) -> Result<Option<Text>, NoMemory>
    ensures { IfOk result (λ text. text ≡ text_of segment.now) }
{
    match percent_decode(segment).decode_utf8(alloc) {
        Ok(text) => Ok(Some(Text::new(alloc, text.as_str())?)),
        Err(DecodeError::Utf8(_)) => Ok(None),
        Err(DecodeError::OutOfMemory) => Err(NoMemory),
    }
}
