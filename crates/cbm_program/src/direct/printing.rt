//! What a request prints, byte by byte.

use crate::fault::RunFault;
use crate::output::print;
use crate::performing::getting::{print_byte, print_head};
use crate::performing::status::{keep, without_return};
use crate::request::ScriptRequest;
use arrayvec::ArrayVec;
use std::io::Write;

/// What a request prints, as far as its bytes have come.
#[derive(Drop)]
pub(crate) enum Printing {
    /// It prints nothing.
    Nothing,
    /// The bytes of a channel; whether the line is begun.
    Bytes(u8, bool),
    /// The status line.
    Status(ArrayVec<u8, 33>),
}

impl Printing {
    /// Before the first byte of a request.
    pub(crate) fn of(request: &ScriptRequest) -> Printing {
        match request {
            ScriptRequest::Get(channel, _) => Printing::Bytes(*channel, false),
            ScriptRequest::Status => Printing::Status(ArrayVec::new()),
            ScriptRequest::Open(..)
            | ScriptRequest::Put(..)
            | ScriptRequest::Fill(..)
            | ScriptRequest::Close(_) => { Printing::Nothing }
        }
    }

    /// The host took a byte. Error: `Writing`.
    pub(crate) fn byte<W: Write>(
        &mut self,
        writer: &mut W,
        byte: u8,
        is_last: bool,
    ) -> Result<(), RunFault> {
        match self {
            Printing::Nothing => Ok(()),
            Printing::Status(line) => {
                keep(line, byte);
                Ok(())
            }
            Printing::Bytes(channel, is_begun) => {
                if !*is_begun {
                    *is_begun = true;
                    print_head(writer, *channel, b" ")?;
                }
                print_byte(writer, byte, is_last)
            }
        }
    }

    /// The request is over. Error: `Writing`.
    pub(crate) fn end<W: Write>(&self, writer: &mut W) -> Result<(), RunFault> {
        match self {
            Printing::Nothing => Ok(()),
            Printing::Bytes(channel, false) => print_head(writer, *channel, b" none\n"),
            Printing::Bytes(_, true) => print(writer, b"\n"),
            Printing::Status(line) => {
                print(writer, b"status ")?;
                print(writer, without_return(line.as_slice()))?;
                print(writer, b"\n")
            }
        }
    }
}
