// The two ciphers and their numbers, one row each.
#![tactic(auto)]

ghost use Rattle.std.specs.Prelude.{◌≡◌, ◌≤◌};
ghost use Rattle.laws.specs.Result.{refuse◌without◌};
ghost use Rattle.refusal.specs.Told.{told};
ghost use Rattle.cipher.specs.Numbers as Numbers;

use refusal::Refusal;
use std::fmt;

#[derive(Clone, Copy, Debug, PartialEq, Eq)]
pub enum Cipher {
    Hc128,
    Hc256,
}

impl fmt::Display for Cipher {
    fn fmt<W: fmt::Write>(&self, f: &mut fmt::Formatter<W>) -> fmt::Result {
        f.write_str(match self {
            Cipher::Hc128 => "HC-128",
            Cipher::Hc256 => "HC-256",
        })
    }
}

// The numbers of a cipher: its code, the words of a table (T), the bytes of a key and of an IV, and the words of the expansion.
#[derive(Clone, Copy, Debug, PartialEq, Eq)]
pub struct Row {
    pub code: u8,
    pub table: usize,
    pub key: usize,
    pub iv: usize,
    pub expansion: usize,
}

pub const ROWS: [Row; 2] = [
    Row {
        code: 1,
        table: 512,
        key: 16,
        iv: 16,
        expansion: 1280,
    },
    Row {
        code: 2,
        table: 1024,
        key: 32,
        iv: 32,
        expansion: 2560,
    },
];

// The cipher of a code; a code that no row has is refused.
impl TryFrom<u32> for Cipher {
    type Error = Refusal;

    ghost try_from_gives = { λ code answer. told answer ≡ (refuse 1 without Numbers.by_code code) };

    fn try_from(code: u32) -> Result<Self, Refusal> {
        if code == Cipher::Hc128.code() {
            Ok(Cipher::Hc128)
        } else if code == Cipher::Hc256.code() {
            Ok(Cipher::Hc256)
        } else {
            Err(Refusal::BadCode)
        }
    }
}

impl Cipher {
    // The row of the cipher.
    pub fn row(self) -> Row
        ensures { result ≡ Numbers.row_of self }
    {
        match self {
            Cipher::Hc128 => ROWS[0],
            Cipher::Hc256 => ROWS[1],
        }
    }

    // The code of the cipher.
    pub fn code(self) -> u32
        ensures { result ≡ Numbers.code_of self }
    {
        self.row().code.into()
    }

    // The words of a table, T.
    pub fn table_words(self) -> usize
        ensures { (result ≡ Numbers.table_length self) × (512 ≤ result) × (result ≤ 1024) }
    {
        self.row().table
    }

    // The words of a table area, 2T.
    pub fn area_words(self) -> usize
        ensures { (result ≡ Numbers.area_length self) × (result ≤ 2048) }
    {
        2 * self.row().table
    }

    // The words of the expansion.
    pub fn expansion_words(self) -> usize
        ensures { (result ≡ Numbers.expansion_length self) × (result ≤ 2560) }
    {
        self.row().expansion
    }

    // The bytes of a key.
    pub fn key_bytes(self) -> usize
        ensures { (result ≡ Numbers.key_length self) × (result ≤ 32) }
    {
        self.row().key
    }

    // The bytes of an IV.
    pub fn iv_bytes(self) -> usize
        ensures { (result ≡ Numbers.iv_length self) × (result ≤ 32) }
    {
        self.row().iv
    }
}
