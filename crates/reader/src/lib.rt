// The reader of a checkpoint: it carries the string it walks and how far it has come. The work is done by functions on a string and a place, and the
// reader's own functions are thin ones over them.
#![tactic(auto)]

ghost use Rattle.std.specs.Prelude.{◌≡◌};
ghost use Rattle.refusal.specs.Told.{told};
ghost use Rattle.reader.specs.Readings as Readings;

use refusal::Refusal;
use varint::{Found, NoNumber};

// The byte at a place of a string.
fn byte_at(string: &[u8], place: usize) -> Result<Found<u8>, Refusal>
    ensures { told result ≡ Readings.byte_at string.now place }
{
    if place < string.len() {
        return Ok(Found {
            value: string[place],
            next: place + 1,
        });
    }
    Err(Refusal::EndsEarly)
}

// The number from a place of a string on, of at most four groups.
fn number_at(string: &[u8], place: usize) -> Result<Found<u64>, Refusal>
    ensures { told result ≡ Readings.number_at string.now place }
{
    if string.len() < place {
        return Err(Refusal::EndsEarly);
    }
    varint::read_number(string, place, 4).map_err(|none| match none {
        NoNumber::Ended => Refusal::EndsEarly,
        NoNumber::Malformed => Refusal::BadNumber,
    })
}

// The reader: the string that it walks, and how far it has come.
#[derive(Clone, Copy, Debug, PartialEq, Eq)]
pub struct Reader<'a> {
    pub string: &'a [u8],
    pub place: usize,
}

impl<'a> Reader<'a> {
    // A reader at the start of a string.
    pub fn new(string: &'a [u8]) -> Reader<'a>
        ensures { result ≡ record { string = string.entry; place = 0 } }
    {
        Reader { string, place: 0 }
    }

    // Reads the code byte; where it is refused the reader stays where it is.
    pub fn code(&mut self) -> Result<u8, Refusal>
        ensures read { told result ≡ Readings.value_in (Readings.byte_at self.old.string.now self.old.place) }
        ensures place { self.new ≡ Readings.come self.old (Readings.byte_at self.old.string.now self.old.place) }
    {
        let found = byte_at(self.string, self.place)?;
        self.place = found.next;
        Ok(found.value)
    }

    // Reads a number; where it is refused the reader stays where it is.
    pub fn number(&mut self) -> Result<u64, Refusal>
        ensures read { told result ≡ Readings.value_in (Readings.number_at self.old.string.now self.old.place) }
        ensures place { self.new ≡ Readings.come self.old (Readings.number_at self.old.string.now self.old.place) }
    {
        let found = number_at(self.string, self.place)?;
        self.place = found.next;
        Ok(found.value)
    }
}

// The position that follows the code byte of a checkpoint, and the place after it, through the reader.
#[tactic(auto, using(crate::proofs::Positions::no_code))]
pub fn read_position(string: &[u8]) -> Result<Found<u64>, Refusal>
    ensures { told result ≡ Readings.position_of string.now }
{
    let mut reader = Reader::new(string);
    reader.code()?;
    let value = reader.number()?;
    Ok(Found {
        value,
        next: reader.place,
    })
}
