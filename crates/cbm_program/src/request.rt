use arrayvec::ArrayVec;

/// The bytes of an open or a put: a script's line has at most 1,000.
pub type Text = ArrayVec<u8, 1000>;

/// What a script asks of a drive; channels are 0 to 15.
#[derive(Debug, Drop)]
pub enum ScriptRequest {
    /// The channel, and the text of the OPEN.
    Open(u8, Text),
    /// The channel, and the bytes that are sent to it between LISTEN and UNLISTEN.
    Put(u8, Text),
    /// The channel, how many bytes are sent to it so, and the byte that each of them is.
    Fill(u8, u32, u8),
    /// The channel, and the most bytes that are read from it between TALK and UNTALK.
    Get(u8, u32),
    Close(u8),
    /// The status line, read to its end.
    Status,
}
