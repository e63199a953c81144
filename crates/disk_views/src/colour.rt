//! Colours of the states of sectors.

/// The colour of a sign, for a picture.
pub fn fill_of(sign: u8) -> &'static str {
    match sign {
        b'.' => "#e8e8e8",
        b'#' => "#4878a8",
        b'x' => "#c03030",
        b'?' => "#e0a030",
        b'!' => "#a040a0",
        _ => "#58a058",
    }
}

/// What a terminal is sent before a sign, so that it has a colour.
pub fn escape_of(sign: u8) -> &'static str {
    match sign {
        b'.' => "\x1b[2m",
        b'#' => "\x1b[34m",
        b'x' => "\x1b[31m",
        b'?' => "\x1b[33m",
        b'!' => "\x1b[35m",
        _ => "\x1b[32m",
    }
}

/// What a terminal is sent after it.
pub const PLAIN: &str = "\x1b[0m";

/// The state of a sector of a sign, in one word for programs.
pub fn state_of(sign: u8) -> &'static str {
    match sign {
        b'.' => "free",
        b'x' => "unreadable",
        b'?' => "lost",
        b'!' => "unmarked",
        _ => "used",
    }
}

/// What a sign of a sector without a file means.
pub fn meaning_of(sign: u8) -> &'static str {
    match sign {
        b'.' => "free",
        b'#' => "used",
        b'x' => "can't be read",
        b'?' => "lost",
        b'!' => "used, but marked free",
        _ => "",
    }
}
