ghost use Rattle.std.specs.Prelude.{◌≡◌, ℕ, ◌*◌, ◌/◌, ◌<◌};
ghost use Rattle.cbm_gcr.specs.Code.{nibble_code};

const CODES: [u8; 16] = [
    10, 11, 18, 19, 14, 15, 22, 23, 9, 25, 26, 27, 13, 29, 30, 21,
];

/// The five bits of a nibble.
pub(crate) fn code_of(nibble: u8) -> u8
    requires { nibble < 16 }
    ensures value { result ≡ nibble_code nibble }
    ensures below { result < 32 }
{
    CODES[nibble as usize]
}

/// What means no nibble, in both tables: more than any byte.
const NONE: u16 = 256;

/// The nibbles of five bits, `NONE` if they are the code of none.
const NIBBLES: [u16; 32] = [
    NONE, NONE, NONE, NONE, NONE, NONE, NONE, NONE, NONE, 8, 0, 1, NONE, 12, 4, 5, NONE, NONE, 2,
    3, NONE, 15, 6, 7, NONE, 9, 10, 11, NONE, 13, 14, NONE,
];

/// The same, each as the high nibble of a byte.
const HIGH_NIBBLES: [u16; 32] = [
    NONE, NONE, NONE, NONE, NONE, NONE, NONE, NONE, NONE, 128, 0, 16, NONE, 192, 64, 80, NONE,
    NONE, 32, 48, NONE, 240, 96, 112, NONE, 144, 160, 176, NONE, 208, 224, NONE,
];

/// The nibble of five bits; 256 if they are the code of none.
pub(crate) fn low_of(five: usize) -> u16
    requires { five < 32 }
    ensures value { (n : ℕ) → n < 16 → five ≡ nibble_code n → result ≡ n }
    ensures known { result < 256 → (result < 16) × (five ≡ nibble_code result) }
    ensures most { result < 257 }
{
    NIBBLES[five]
}

/// Sixteen times the nibble of five bits; 256 if they are the code of none.
pub(crate) fn high_of(five: usize) -> u16
    requires { five < 32 }
    ensures value { (n : ℕ) → n < 16 → five ≡ nibble_code n → result ≡ 16 * n }
    ensures known { result < 256 → (result ≡ 16 * (result / 16)) × (five ≡ nibble_code (result / 16)) }
    ensures most { result < 257 }
{
    HIGH_NIBBLES[five]
}
