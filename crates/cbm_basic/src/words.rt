//! The words of BASIC 2.0.
ghost use Rattle.std.specs.Prelude.{◌≡◌, None, MatchOption, Some};
ghost use Rattle.cbm_basic.specs.Words.{word_row};

/// The words in the order of their tokens from $80 on, each filled up with spaces. `^` is the arrow upwards, whose code it is.
pub const WORDS: [[u8; 7]; 76] = [
    *b"END    ",
    *b"FOR    ",
    *b"NEXT   ",
    *b"DATA   ",
    *b"INPUT# ",
    *b"INPUT  ",
    *b"DIM    ",
    *b"READ   ",
    *b"LET    ",
    *b"GOTO   ",
    *b"RUN    ",
    *b"IF     ",
    *b"RESTORE",
    *b"GOSUB  ",
    *b"RETURN ",
    *b"REM    ",
    *b"STOP   ",
    *b"ON     ",
    *b"WAIT   ",
    *b"LOAD   ",
    *b"SAVE   ",
    *b"VERIFY ",
    *b"DEF    ",
    *b"POKE   ",
    *b"PRINT# ",
    *b"PRINT  ",
    *b"CONT   ",
    *b"LIST   ",
    *b"CLR    ",
    *b"CMD    ",
    *b"SYS    ",
    *b"OPEN   ",
    *b"CLOSE  ",
    *b"GET    ",
    *b"NEW    ",
    *b"TAB(   ",
    *b"TO     ",
    *b"FN     ",
    *b"SPC(   ",
    *b"THEN   ",
    *b"NOT    ",
    *b"STEP   ",
    *b"+      ",
    *b"-      ",
    *b"*      ",
    *b"/      ",
    *b"^      ",
    *b"AND    ",
    *b"OR     ",
    *b">      ",
    *b"=      ",
    *b"<      ",
    *b"SGN    ",
    *b"INT    ",
    *b"ABS    ",
    *b"USR    ",
    *b"FRE    ",
    *b"POS    ",
    *b"SQR    ",
    *b"RND    ",
    *b"LOG    ",
    *b"EXP    ",
    *b"COS    ",
    *b"SIN    ",
    *b"TAN    ",
    *b"ATN    ",
    *b"PEEK   ",
    *b"LEN    ",
    *b"STR$   ",
    *b"VAL    ",
    *b"ASC    ",
    *b"CHR$   ",
    *b"LEFT$  ",
    *b"RIGHT$ ",
    *b"MID$   ",
    *b"GO     ",
];

/// How many words there are.
const COUNT: u8 = 76;

/// The row of a token's word; None where BASIC 2.0 has none.
pub fn row_of(token: u8) -> Option<[u8; 7]>
    ensures { MatchOption result (word_row token ≡ None) (λ row. word_row token ≡ Some row) }
{
    let place = token.checked_sub(128)?;
    if place < COUNT {
        Some(WORDS[usize::from(place)])
    } else {
        None
    }
}
