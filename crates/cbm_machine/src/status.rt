ghost use Rattle.std.specs.Prelude.{◌≡◌, ◌+◌, ◌≤◌, ◌++◌, length};
ghost use Rattle.arrayvec.specs.ArrayVec.{array_vec_len};
ghost use Rattle.cbm_machine.specs.Codes.{code_text};
ghost use Rattle.cbm_machine.specs.Statuses.{two_digits, plain, status_line, trouble_gives};

use crate::code::Code;
use arrayvec::ArrayVec;
use cbm_medium::Trouble;

/// A status line of at most 33 bytes.
pub type StatusLine = ArrayVec<u8, 33>;

/// The status of the drive, which channel 15 sends: a code and two numbers.
#[derive(Clone, Copy, Debug, PartialEq, Eq)]
pub struct Status {
    /// What happened.
    pub code: Code,
    /// A track, a count of files, or 0.
    pub first: u8,
    /// A sector, or 0.
    pub second: u8,
}

/// Adds bytes to a line that has room for them.
fn add(line: &mut StatusLine, bytes: &[u8])
    requires { array_vec_len line.old + length bytes.now ≤ 33 }
    ensures items { line.new.items ≡ line.old.items ++ bytes.now }
    ensures len { array_vec_len line.new ≡ array_vec_len line.old + length bytes.now }
{
    line.try_extend_from_slice(bytes).unwrap()
}

/// A number as two digits; more than 99 is shown as 99.
fn two_digits(number: u8) -> [u8; 2]
    ensures { result ≡ two_digits number }
{
    let shown = number.min(99);
    [b'0' + shown / 10, b'0' + shown % 10]
}

impl Status {
    /// A code whose two numbers are 0.
    pub fn plain(code: Code) -> Status
        ensures { result ≡ plain code }
    {
        Status {
            code,
            first: 0,
            second: 0,
        }
    }

    /// The line that channel 15 sends: `code,text,nn,nn` and a return; a number above 99 is shown as 99.
    pub fn line(self) -> StatusLine
        ensures { result.items ≡ status_line self }
    {
        let mut line = StatusLine::new();
        add(&mut line, &two_digits(self.code.number()));
        add(&mut line, b",");
        add(&mut line, self.code.text());
        add(&mut line, b",");
        add(&mut line, &two_digits(self.first));
        add(&mut line, b",");
        add(&mut line, &two_digits(self.second));
        add(&mut line, b"\r");
        line
    }
}

impl From<Trouble> for Status {
    ghost from_gives = { trouble_gives };

    /// The status of what a disk answers in place of bytes: its fault, track and sector, or 26, 0 and 0 if the disk
    /// is protected.
    fn from(trouble: Trouble) -> Status {
        if trouble.code == Code::WriteProtected.number() {
            return Status::plain(Code::WriteProtected);
        }
        Status {
            code: Code::of_fault(trouble.code),
            first: trouble.track,
            second: trouble.sector,
        }
    }
}
