//! Numbers that are written as varints.

ghost use Rattle.std.specs.Prelude.{◌≡◌};
ghost use Rattle.pb_wire_defs.specs.Field.{Payload};
ghost use Rattle.pb_wire_defs.specs.Field.Payload.{Varint};
ghost use Rattle.feed_defs.specs.Rows.{bool_payload, signed_payload};

/// A value that is written as a varint.
pub(crate) trait Scalar: Copy {
    ghost payload: { Self → Payload };

    /// The number of the varint.
    fn number(self) -> u64
        ensures { payload self ≡ Varint result };
}

impl Scalar for u64 {
    ghost payload = { λ n. Varint n };

    fn number(self) -> u64 {
        self
    }
}

impl Scalar for u32 {
    ghost payload = { λ n. Varint n };

    fn number(self) -> u64 {
        u64::from(self)
    }
}

impl Scalar for i64 {
    ghost payload = { signed_payload };

    fn number(self) -> u64 {
        self.cast_unsigned()
    }
}

// A negative number is spelled as one of 64 bits (Protocol Buffers, "Encoding", "Signed Integers").
impl Scalar for i32 {
    ghost payload = { signed_payload };

    fn number(self) -> u64 {
        i64::from(self).cast_unsigned()
    }
}

impl Scalar for bool {
    ghost payload = { bool_payload };

    fn number(self) -> u64 {
        if self { 1 } else { 0 }
    }
}
