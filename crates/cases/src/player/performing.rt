// Requests that are carried out by a drive's calls, on any medium.

ghost use Rattle.std.specs.Prelude.{◌≤◌};

use crate::player::called::Called;
use crate::player::items::show;
use cbm_medium::Medium;
use cbm_program::{ScriptLine, ScriptRequest, parse};
use std::alloc::{AllocError, Global};

/// Sends bytes to a channel.
fn put<M: Medium>(dos: &mut Called<M>, channel: u8, bytes: &[u8])
    requires { channel ≤ 15 }
{
    dos.listen(channel);
    for byte in bytes {
        dos.put(channel, *byte);
    }
    dos.end_put(channel);
}

/// Reads so many bytes of a channel, and whether the last one came with EOI.
fn get<M: Medium>(
    dos: &mut Called<M>,
    channel: u8,
    most: u32,
    bytes: &mut Vec<u8>,
) -> Result<bool, AllocError>
    requires { channel ≤ 15 }
{
    dos.talk(channel);
    for _ in 0..most {
        let Some((byte, last)) = dos.peek(channel) else {
            break;
        };
        bytes.push(byte)?;
        dos.taken(channel);
        if last {
            return Ok(true);
        }
    }
    Ok(false)
}

/// Prints what a channel says.
fn print_get<M: Medium>(
    alloc: Global,
    dos: &mut Called<M>,
    channel: u8,
    most: u32,
    out: &mut String,
) -> Result<(), AllocError>
    requires { channel ≤ 15 }
{
    let mut bytes: Vec<u8> = Vec::new(alloc);
    let last = get(dos, channel, most, &mut bytes)?;
    write!(out, "get {channel} ")?;
    if bytes.is_empty() {
        out.push_str("none")?;
    }
    show(out, bytes.as_slice())?;
    out.push_str(if last { " eoi\n" } else { "\n" })
}

/// Prints the status.
fn print_status<M: Medium>(
    alloc: Global,
    dos: &mut Called<M>,
    out: &mut String,
) -> Result<(), AllocError> {
    let mut bytes: Vec<u8> = Vec::new(alloc);
    get(dos, 15, 100, &mut bytes)?;
    out.push_str("status ")?;
    for byte in bytes.as_slice() {
        if *byte != 13 {
            out.push(char::from(*byte))?;
        }
    }
    out.push_str("\n")
}

/// Carries out a request.
fn perform<M: Medium>(
    alloc: Global,
    dos: &mut Called<M>,
    request: &ScriptRequest,
    out: &mut String,
) -> Result<(), AllocError> {
    match request {
        ScriptRequest::Open(channel, text) => dos.open((*channel).min(15), text.as_slice()),
        ScriptRequest::Put(channel, bytes) => put(dos, (*channel).min(15), bytes.as_slice()),
        ScriptRequest::Fill(channel, count, byte) => {
            let bytes = vec![in alloc; *byte; *count as usize]?;
            put(dos, (*channel).min(15), bytes.as_slice());
        }
        ScriptRequest::Get(channel, most) => print_get(alloc, dos, (*channel).min(15), *most, out)?,
        ScriptRequest::Close(channel) => dos.close((*channel).min(15)),
        ScriptRequest::Status => print_status(alloc, dos, out)?,
    }
    Ok(())
}

/// Carries out the lines of a script; whether each of them could be read.
pub fn perform_all<M: Medium>(
    alloc: Global,
    dos: &mut Called<M>,
    script: &str,
    out: &mut String,
) -> Result<bool, AllocError> {
    for line in script.lines() {
        if line.len() > 1000 {
            return Ok(false);
        }
        match parse(line.as_bytes()) {
            Some(ScriptLine::Asks(request)) => perform(alloc, dos, &request, out)?,
            Some(ScriptLine::Skipped) => (),
            None => return Ok(false),
        }
    }
    Ok(true)
}
