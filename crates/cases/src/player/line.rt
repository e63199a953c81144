// What a line of a transcript says.

/// A fact of the disk that a step left.
#[derive(Clone, Copy)]
pub enum Fact<'a> {
    /// The directory's lines follow.
    List,
    /// The bytes of a sector.
    Sector(&'a str),
    /// How many blocks are free.
    Free(&'a str),
    /// How many blocks are nobody's.
    Lost(&'a str),
    /// How many writes the step has.
    Writes(&'a str),
    /// What is wrong with the disk.
    Check(&'a str),
    /// The name that the disk is kept under.
    Keep(&'a str),
    /// The name of the disk that it is the same as.
    SameAs(&'a str),
}

/// What a line says.
#[derive(Clone, Copy)]
pub enum CaseLine<'a> {
    /// A case begins.
    Case,
    /// A step begins.
    Head(&'a str),
    /// Bytes of the disk are changed.
    Poke(&'a str),
    Request(&'a str),
    Answer(&'a str),
    /// A line of the directory.
    Row(&'a str),
    Fact(Fact<'a>),
}

/// Whether a line that begins with this word is printed by the program.
fn is_answer(word: &str) -> bool {
    match word {
        "get" | "status" | "script" | "image" => true,
        _ => word.parse::<u64>().is_ok(),
    }
}

/// The fact that a line with this first word tells.
fn fact_of<'a>(word: &'a str, rest: &'a str) -> Option<Fact<'a>> {
    Some(match word {
        "list" => Fact::List,
        "sector" => Fact::Sector(rest),
        "free" => Fact::Free(rest),
        "lost" => Fact::Lost(rest),
        "writes" => Fact::Writes(rest),
        "check" => Fact::Check(rest),
        "keep" => Fact::Keep(rest),
        "same" => Fact::SameAs(rest.strip_prefix("as ")?),
        _ => return None,
    })
}

impl<'a> CaseLine<'a> {
    /// What a line says; None if no line begins so.
    pub fn of(text: &'a str) -> Option<CaseLine<'a>> {
        let (word, rest) = text.split_once(' ').unwrap_or((text, ""));
        if is_answer(word) {
            return Some(CaseLine::Answer(text));
        }
        Some(match word.strip_suffix(",").unwrap_or(word) {
            "" => CaseLine::Row(text),
            "==" => CaseLine::Case,
            ">" => CaseLine::Request(rest),
            "disk" | "then" | "stays" => CaseLine::Head(text),
            "poke" => CaseLine::Poke(rest),
            word => CaseLine::Fact(fact_of(word, rest)?),
        })
    }
}
