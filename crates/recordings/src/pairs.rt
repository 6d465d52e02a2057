// A pair of recordings, and the part that is to be handed back of it or the refusal that it is to get.
use comparison::Part;
use refusal::Refusal;
use std::{fmt, io};

#[derive(Clone, Copy)]
pub struct Pair<'a> {
    name: &'a str,
    blender: &'a [u8],
    gauge: &'a [u8],
    expected: Result<Part, Refusal>,
}

// So many bytes of the blender's from byte `from` on.
pub fn blenders(from: usize, length: usize) -> Result<Part, Refusal> {
    Ok(Part::Blender { from, length })
}

// So many bytes of the gauge's from byte `from` on.
pub fn gauges(from: usize, length: usize) -> Result<Part, Refusal> {
    Ok(Part::Gauge { from, length })
}

impl<'a> Pair<'a> {
    pub fn new(
        name: &'a str,
        blender: &'a [u8],
        gauge: &'a [u8],
        expected: Result<Part, Refusal>,
    ) -> Pair<'a> {
        Pair {
            name,
            blender,
            gauge,
            expected,
        }
    }

    // The bytes of a part, where the buffer has them.
    fn bytes(&self, part: Part) -> Option<&'a [u8]> {
        match part {
            Part::Blender { from, length } => self.blender.get(from..)?.get(..length),
            Part::Gauge { from, length } => self.gauge.get(from..)?.get(..length),
        }
    }

    // Whether the pair is answered as expected. Of a refused pair the empty beginning of the blender's buffer is handed back.
    fn is_right(&self) -> bool {
        let empty = Part::Blender { from: 0, length: 0 };
        let part = self.expected.unwrap_or(empty);
        let given = comparison::compare_recordings(self.blender, self.gauge);
        comparison::check_recordings(self.blender, self.gauge) == self.expected.map(|_| ())
            && comparison::find_part(self.blender, self.gauge) == part
            && self.bytes(part) == Some(given)
    }

    // Prints the line of the pair.
    pub fn run(&self, rt: &impl Print) -> io::Result<()> {
        let word = if self.is_right() { "ok" } else { "wrong" };
        println!(rt; "{self} {word}")
    }
}

impl fmt::Display for Pair<'_> {
    fn fmt<W: fmt::Write>(&self, f: &mut fmt::Formatter<W>) -> fmt::Result {
        let name = self.name;
        match self.expected {
            Ok(Part::Blender { from, length }) => {
                write!(f, "{name}: the blender's from {from}, bytes {length}")
            }
            Ok(Part::Gauge { from, length }) => {
                write!(f, "{name}: the gauge's from {from}, bytes {length}")
            }
            Err(refusal) => write!(f, "{name}: refused {}", u64::from(refusal)),
        }
    }
}
