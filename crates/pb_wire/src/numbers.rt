//! What stands in front of a byte list: a varint, a number of four or eight bytes, or a run of
//! bytes.

ghost use Rattle.std.specs.Prelude.{◌≡◌, ℕ, List, ◌<◌};
ghost use Rattle.std.specs.Int.{w32, w64};
ghost use Rattle.pb_wire_defs.specs.Field.Payload.{Eight, Four};
ghost use Rattle.pb_wire_defs.specs.Reading.{varint_at, fixed_at, span_at, tag_at};
ghost use Rattle.pb_wire.specs.Parts.{Finds};

use crate::fault::WireFault;

/// The varint in front, and the bytes behind it.
/// Each field passes through these three: in line, what they answer stays in registers.
#[inline(always)]
pub fn varint_at(bytes: &[u8]) -> Result<(u64, &[u8]), WireFault>
    ensures { Finds (λ x. (x.0, x.1.now)) result (varint_at bytes.now) }
{
    match bytes {
        [byte, rest @ ..] if *byte < 128 => Ok((u64::from(*byte), rest)),
        _ => long_varint_at(bytes),
    }
}

/// Few varints have more than one byte, so their loop is kept off the path of the others.
#[inline(never)]
fn long_varint_at(bytes: &[u8]) -> Result<(u64, &[u8]), WireFault>
    ensures { Finds (λ x. (x.0, x.1.now)) result (varint_at bytes.now) }
{
    let mut value = 0u64;
    let mut scale = 1u64;
    let mut rest = bytes;
    'groups: for _ in 0..10u8 {
        let Some((byte, after)) = rest.split_first() else {
            return Err(WireFault::Cut);
        };
        value = value.wrapping_add(scale.wrapping_mul(u64::from(*byte % 128)));
        if *byte < 128 {
            return Ok((value, after));
        }
        scale = scale.wrapping_mul(128);
        rest = after;
    }
    Err(WireFault::Varint)
}

/// The tag in front, and the bytes behind it: it has a number of at least 1 and a wire type of at
/// most 5.
#[tactic(auto, unfolding(pb_wire_defs::specs::Reading::tag_at))]
#[inline(always)]
pub fn tag_at(bytes: &[u8]) -> Result<(u32, &[u8]), WireFault>
    ensures { Finds (λ x. (x.0, x.1.now)) result (tag_at bytes.now) }
{
    let (tag, rest) = varint_at(bytes)?;
    if tag >= 0x1_0000_0000 || tag < 8 || tag % 8 > 5 {
        return Err(WireFault::Tag);
    }
    Ok((tag as u32, rest))
}

/// The number of four bytes in front, the lowest first, and the bytes behind it.
pub fn four_at(bytes: &[u8]) -> Result<(u32, &[u8]), WireFault>
    ensures { Finds (λ x. (Four x.0, x.1.now)) result (fixed_at w32 Four bytes.now) }
{
    if bytes.len() < 4 {
        return Err(WireFault::Cut);
    }
    let (front, rest) = bytes.split_at(4);
    let number = u32::from_le_bytes([front[0], front[1], front[2], front[3]]);
    Ok((number, rest))
}

/// The number of eight bytes in front, the lowest first, and the bytes behind it.
pub fn eight_at(bytes: &[u8]) -> Result<(u64, &[u8]), WireFault>
    ensures { Finds (λ x. (Eight x.0, x.1.now)) result (fixed_at w64 Eight bytes.now) }
{
    if bytes.len() < 8 {
        return Err(WireFault::Cut);
    }
    let (front, rest) = bytes.split_at(8);
    let number = u64::from_le_bytes([
        front[0], front[1], front[2], front[3], front[4], front[5], front[6], front[7],
    ]);
    Ok((number, rest))
}

/// As many bytes as the varint in front says, and the bytes behind them.
#[tactic(auto, unfolding(pb_wire_defs::specs::Reading::span_at))]
#[inline(always)]
pub fn span_at(bytes: &[u8]) -> Result<(&[u8], &[u8]), WireFault>
    ensures { Finds (λ x. (x.0.now, x.1.now)) result (span_at bytes.now) }
{
    let (size, rest) = varint_at(bytes)?;
    if (rest.len() as u64) < size {
        return Err(WireFault::Cut);
    }
    Ok(rest.split_at(size as usize))
}
