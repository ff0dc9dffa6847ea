//! How far the lines of a head have come.
ghost use Rattle.std.specs.Prelude.{◌≡◌};
ghost use Rattle.std.specs.List.{fold};
ghost use Rattle.http_req.specs.Progress.{step, has_ended};

/// Where the bytes read so far stop. A head ends with an empty line that stands behind others.
#[derive(Clone, Copy)]
pub(crate) enum Progress {
    /// Before the first byte of the first line; empty lines may stand there.
    BeforeHead,
    /// Within a line.
    InLine,
    /// Behind the end of a line.
    AtLineStart,
    /// Behind an empty line, so that the head may have ended.
    MayHaveEnded,
}

impl Progress {
    /// Where it stands before the first byte.
    pub(crate) const START: Progress = Progress::BeforeHead;

    /// Where it stands after more bytes.
    pub(crate) fn after(self, bytes: &[u8]) -> Progress
        ensures { result ≡ fold step self bytes.now }
    {
        let mut progress = self;
        for byte in bytes {
            if progress.has_ended() {
                return progress;
            }
            progress = progress.after_byte(*byte);
        }
        progress
    }

    /// Whether the head may have ended.
    pub(crate) fn has_ended(self) -> bool
        ensures { result ≡ has_ended self }
    {
        match self {
            Progress::MayHaveEnded => true,
            Progress::BeforeHead | Progress::InLine | Progress::AtLineStart => false,
        }
    }

    fn after_byte(self, byte: u8) -> Progress
        ensures { result ≡ step self byte }
    {
        match self {
            Progress::BeforeHead => {
                if byte == b'\r' || byte == b'\n' {
                    Progress::BeforeHead
                } else {
                    Progress::InLine
                }
            }
            Progress::InLine => {
                if byte == b'\n' {
                    Progress::AtLineStart
                } else {
                    Progress::InLine
                }
            }
            Progress::AtLineStart => {
                if byte == b'\n' {
                    Progress::MayHaveEnded
                } else if byte == b'\r' {
                    Progress::AtLineStart
                } else {
                    Progress::InLine
                }
            }
            Progress::MayHaveEnded => Progress::MayHaveEnded,
        }
    }
}
