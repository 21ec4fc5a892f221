//! The sign that a line begins with.

ghost use Rattle.dr_session.specs.Signs.{IsSign};

/// What a line of a session asks for.
#[derive(Clone, Copy)]
pub(crate) enum Sign {
    /// `+RECORD`: to keep a record.
    Keep,
    /// `?QUERY`: to ask all that is published.
    Ask,
    /// `.`: to publish the records that are kept.
    Publish,
    /// It begins with no sign.
    Nothing,
}

/// The sign of a line.
pub(crate) fn sign_of(line: &[u8]) -> Sign
    ensures { IsSign line.now result }
{
    if line.is_empty() {
        return Sign::Nothing;
    }
    let first = line[0];
    if first == b'+' {
        return Sign::Keep;
    }
    if first == b'?' {
        return Sign::Ask;
    }
    if first != b'.' {
        return Sign::Nothing;
    }
    if line.len() > 1 {
        return Sign::Nothing;
    }
    Sign::Publish
}
