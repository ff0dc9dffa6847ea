//! Cuts targets into their path and their form.
ghost use Rattle.std.specs.Prelude.{◌≡◌};
ghost use Rattle.std.specs.List.{position};
ghost use Rattle.http_defs.specs.Targets.{begins_with_slash, is_question_mark, path_in, form_in};

/// Whether a target has the form of a path.
pub(crate) fn begins_with_slash(target: &[u8]) -> bool
    ensures { result ≡ begins_with_slash target.now }
{
    match target {
        [first, ..] => *first == b'/',
        [] => false,
    }
}

/// The place of the first question mark.
fn question_mark_in(target: &[u8]) -> Option<usize>
    ensures { result ≡ position is_question_mark target.now }
{
    target.iter().position(|byte| *byte == b'?')
}

/// The path of a target: what stands before its first question mark.
pub(crate) fn path_in(target: &[u8]) -> &[u8]
    ensures { result.now ≡ path_in target.entry.now }
{
    match question_mark_in(target) {
        Some(place) => &target[..place],
        None => target,
    }
}

/// The form of a target: what stands behind its first question mark.
pub(crate) fn form_in(target: &[u8]) -> &[u8]
    ensures { result.now ≡ form_in target.entry.now }
{
    match question_mark_in(target) {
        Some(place) => &target[place + 1..],
        None => &[],
    }
}
