//! Topics of help that are no commands.

/// How names of files are written.
const NAMES: &str = "How names of files are written

Characters:
  hello, HELLO     the same name: letters mean those of a C64 after power-up
  --charset lower  the C64's other set: small letters, and capital ones for those with SHIFT
  ♥                a character means its key: S with SHIFT
  {c1}             any code, in two hexadecimal digits

Codes without a key, which are shown as {hh}:
  {00} to {1f}, {80} to {a0}  control codes, and the shifted space
  {60} to {7f}, {e0} to {ff}  codes that look like others

Patterns:
  ?                one character
  *                the rest of the name
  -- -NAME         a name that begins with -

A new name has at most 16 characters, and none of , = : and \". These choose a file with any name:
  --exact          the name is exact: *, ?, , and \" are characters of it
  --slot N         the file in slot N of the directory, counted from 0, as in `list --json`

Files of the host:
  %XX              a code that get-all can't write in a file's name; put turns it back
  \\xHH             a byte of a file's name that isn't UTF-8; such a file can't be opened
  -                standard input or output
";

/// The text of a topic that a command line asks for help on; None where it asks for none.
pub fn topic_of(words: &[String]) -> Option<&'static str> {
    let [_, help, topic] = words else {
        return None;
    };
    match (help.as_str(), topic.as_str()) {
        ("help", "names") => Some(NAMES),
        _ => None,
    }
}
