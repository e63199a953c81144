//! What a line of a script asks for.
ghost use Rattle.std.specs.Prelude.{◌≡◌, ◌≤◌, length, option_map, IfSome};
ghost use Rattle.std.specs.Option.{ForSome};
ghost use Rattle.cbm_program.specs.Requests.{text_after, fill_of, get_of, asked_of, request_of, line_of};
ghost use Rattle.cbm_program.specs.Running.{IsInRange, LineIsInRange};

use crate::request::{ScriptRequest, Text};
use crate::text::decode;
use crate::word::{byte, channel, count};
use bus_traces::split_word;

/// What a line of a script is.
#[derive(Debug, Drop)]
pub enum ScriptLine {
    /// It is empty, or begins with `;`.
    Skipped,
    Asks(ScriptRequest),
}

fn text_after(rest: Option<&[u8]>) -> Option<Text>
    requires { ForSome rest (λ text. length text.now ≤ 1000) }
    ensures { option_map (λ text. text.items) result ≡ text_after (option_map (λ text. text.now) rest.entry) }
{
    match rest {
        None => Some(Text::new()),
        Some(text) => decode(text),
    }
}

fn fill(channel: u8, rest: Option<&[u8]>) -> Option<ScriptRequest>
    requires { channel ≤ 15 }
    ensures channel { IfSome result IsInRange }
    ensures value { result ≡ fill_of channel (option_map (λ words. words.now) rest.entry) }
{
    let (count_word, byte_word) = split_word(rest?);
    Some(ScriptRequest::Fill(channel, count(count_word)?, byte(byte_word?)?))
}

fn get(channel: u8, rest: Option<&[u8]>) -> Option<ScriptRequest>
    requires { channel ≤ 15 }
    ensures channel { IfSome result IsInRange }
    ensures value { result ≡ get_of channel (option_map (λ word. word.now) rest.entry) }
{
    Some(ScriptRequest::Get(channel, count(rest?)?))
}

fn asked(verb: &[u8], channel: u8, rest: Option<&[u8]>) -> Option<ScriptRequest>
    requires channel { channel ≤ 15 }
    requires short { ForSome rest (λ text. length text.now ≤ 1000) }
    ensures channel { IfSome result IsInRange }
    ensures value { result ≡ asked_of verb.now channel (option_map (λ text. text.now) rest.entry) }
{
    if verb == b"open".as_slice() {
        Some(ScriptRequest::Open(channel, text_after(rest)?))
    } else if verb == b"put".as_slice() {
        Some(ScriptRequest::Put(channel, text_after(rest)?))
    } else if verb == b"fill".as_slice() {
        fill(channel, rest)
    } else if verb == b"get".as_slice() {
        get(channel, rest)
    } else if verb == b"close".as_slice() && rest.is_none() {
        Some(ScriptRequest::Close(channel))
    } else {
        None
    }
}

fn requested(bytes: &[u8]) -> Option<ScriptRequest>
    requires { length bytes.now ≤ 1000 }
    ensures channel { IfSome result IsInRange }
    ensures value { result ≡ request_of bytes.now }
{
    let (verb, rest) = split_word(bytes);
    if verb == b"status".as_slice() {
        return if rest.is_none() {
            Some(ScriptRequest::Status)
        } else {
            None
        };
    }
    let (channel_word, rest) = split_word(rest?);
    asked(verb, channel(channel_word)?, rest)
}

/// What a line asks for: nothing if it is empty or begins with `;`, and None if it is refused.
pub fn parse(line: &[u8]) -> Option<ScriptLine>
    requires { length line.now ≤ 1000 }
    ensures value { result ≡ line_of line.now }

    // The channel of a request is 0 to 15.
    ensures channel { IfSome result LineIsInRange }
{
    match line.first() {
        None | Some(b';') => Some(ScriptLine::Skipped),
        Some(_) => Some(ScriptLine::Asks(requested(line)?)),
    }
}
