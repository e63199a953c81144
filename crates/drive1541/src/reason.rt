//! Why a line of a script is refused.

/// What is wrong with a line first.
#[derive(Clone, Copy, Debug, PartialEq, Eq)]
pub enum Reason {
    /// The line isn't known.
    Unknown,
    /// It begins with a space.
    Space,
    /// It has more than 1,000 bytes.
    Long,
    /// No request is called so.
    Verb,
    /// The channel is none.
    Channel,
    /// The numbers after the channel are none.
    Numbers,
    /// Something stands after the request.
    More,
    /// The text can't be sent.
    Text,
    /// It is no change of a line, or comes too early, or the end is missing.
    Change,
}

/// The most bytes of a line.
const LONGEST: usize = 1000;

/// The requests.
const VERBS: [&[u8]; 6] = [b"open", b"put", b"fill", b"get", b"close", b"status"];

/// The word before the first space, and what stands after that.
fn cut(bytes: &[u8]) -> (&[u8], &[u8]) {
    for (place, byte) in bytes.iter().enumerate() {
        if *byte == b' ' {
            let word = bytes.get(..place).unwrap_or(bytes);
            return (word, bytes.get(place.saturating_add(1)..).unwrap_or(&[]));
        }
    }
    (bytes, &[])
}

/// Whether a word is a request's.
fn is_verb(word: &[u8]) -> bool {
    for verb in &VERBS {
        if *verb == word {
            return true;
        }
    }
    false
}

/// Whether a word is a channel.
fn is_channel(word: &[u8]) -> bool {
    match word {
        [b'0'..=b'9'] | [b'1', b'0'..=b'5'] => true,
        _ => false,
    }
}

/// What is wrong after the channel.
fn after_channel(verb: &[u8], has_more: bool) -> Reason {
    match verb {
        b"close" if has_more => Reason::More,
        b"get" | b"fill" => Reason::Numbers,
        b"open" | b"put" => Reason::Text,
        _ => Reason::Channel,
    }
}

/// What is wrong with a request.
fn of_request(line: &[u8]) -> Reason {
    let (verb, rest) = cut(line);
    if !is_verb(verb) {
        return Reason::Verb;
    }
    if verb == b"status".as_slice() {
        return Reason::More;
    }
    let (channel, more) = cut(rest);
    if !is_channel(channel) {
        return Reason::Channel;
    }
    after_channel(verb, !more.is_empty())
}

impl Reason {
    /// What is wrong first with a line that is refused.
    pub fn of(line: &[u8], is_wires: bool) -> Reason {
        if line.starts_with(b" ") {
            return Reason::Space;
        }
        if line.len() > LONGEST {
            return Reason::Long;
        }
        if is_wires {
            return Reason::Change;
        }
        of_request(line)
    }

    /// The reason in words.
    pub fn words(self) -> &'static str {
        match self {
            Reason::Unknown => "it is not a request",
            Reason::Space => "it begins with a space: remove it",
            Reason::Long => "it has more than 1,000 bytes",
            Reason::Verb => "it must begin with open, put, fill, get, close or status",
            Reason::Channel => "expected a channel, 0 to 15, after one space",
            Reason::Numbers => {
                "after the channel, get needs a count, 1 to 200000, and fill a count and two hexadecimal digits"
            }
            Reason::More => "unexpected text after this request",
            Reason::Text => {
                "its text has a byte that isn't from $20 to $7e, or a backslash without two of 0 to 9 and a to f (\\5c is a backslash)"
            }
            Reason::Change => {
                "expected `MOMENT LINE WAY`, such as `0 atn pull`; moments never go back, and `end MOMENT` comes last"
            }
        }
    }
}

/// The number of the fault of a file that is no image of a 1541's disk.
pub const NO_IMAGE: u8 = 1;

/// Why an image is refused, by the number of its fault.
pub fn image_words(number: u8) -> &'static str {
    match number {
        2 => "the G64's version isn't 0",
        3 => "the G64 must have 69 to 84 track entries",
        4 => "the G64's greatest track size is above 7928 bytes",
        5 => "the G64 is truncated, or a track lies outside the file",
        6 => "a track of the G64 is empty, or longer than the greatest track size",
        8 => "two tracks of the G64 share bytes",
        _ => "it is not a disk image",
    }
}
