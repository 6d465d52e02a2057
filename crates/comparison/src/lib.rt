// The blender's log against the tank gauge's: two recordings of one run. Both are checked first, the blender's first. Where both are volumes, they
// are gone through entry by entry up to the first place where they don't have the same entry, and the bytes of one of them from there to its end are
// handed back.
#![tactic(auto)]

ghost use Rattle.std.specs.Prelude.{◌≡◌, ◌≤◌, cond, length};
ghost use Rattle.refusal.specs.Numbers.{number_in};
ghost use Rattle.comparison.specs.Comparison as Comparison;
ghost use Rattle.comparison.specs.Parts as Parts;
ghost use Rattle.comparison.specs.Found.{PartIs, blender_rest, gauge_rest};

use refusal::Refusal;
use varint::Found;
use volume::check_volume;
use volume::reading::{count_entries, read_entry};

// Part of one of the two buffers: so many bytes of it, from byte `from` on.
#[derive(Clone, Copy, Debug, PartialEq, Eq)]
pub enum Part {
    Blender { from: usize, length: usize },
    Gauge { from: usize, length: usize },
}

// The part for C: recording 0 is the blender's, 1 the gauge's.
#[repr(C)]
#[derive(Clone, Copy)]
pub struct PartAnswer {
    pub recording: u64,
    pub from: usize,
    pub length: usize,
}

impl From<Part> for PartAnswer {
    ghost from_gives = { λ part answer. answer ≡ Comparison.for_c part };

    fn from(part: Part) -> PartAnswer {
        let (recording, from, length) = match part {
            Part::Blender { from, length } => (0, from, length),
            Part::Gauge { from, length } => (1, from, length),
        };
        PartAnswer {
            recording: recording,
            from: from,
            length: length,
        }
    }
}

// The bytes of one of the two recordings from the place to which it has come to its end: the gauge's or the blender's.
fn rest(of_gauge: bool, blender: &[u8], blender_at: usize, gauge: &[u8], gauge_at: usize) -> Part
    requires { (blender_at ≤ length blender.now) × (gauge_at ≤ length gauge.now) }
    ensures { result ≡ cond of_gauge (gauge_rest (length gauge.now) gauge_at) (blender_rest (length blender.now) blender_at) }
{
    if of_gauge {
        Part::Gauge {
            from: gauge_at,
            length: gauge.len() - gauge_at,
        }
    } else {
        Part::Blender {
            from: blender_at,
            length: blender.len() - blender_at,
        }
    }
}

// The part handed back of two volumes, with so many entries that begin at these places.
fn first_difference(
    blender: &[u8],
    blenders: Found<usize>,
    gauge: &[u8],
    gauges: Found<usize>,
) -> Part
    requires { (blenders.next ≤ length blender.now) × (gauges.next ≤ length gauge.now) }
    ensures { PartIs blender.now blenders.next blenders.value gauge.now gauges.next gauges.value result }
{
    let mut blender_at = blenders.next;
    let mut gauge_at = gauges.next;
    for k in 0..blenders.value.min(gauges.value) {
        let b = read_entry(blender, blender_at);
        let g = read_entry(gauge, gauge_at);
        if b.value != g.value {
            let smaller = g.value.ratio < b.value.ratio;
            return rest(smaller, blender, blender_at, gauge, gauge_at);
        }
        blender_at = b.next;
        gauge_at = g.next;
    }
    let longer = blenders.value < gauges.value; // the blender's has ended, and the gauge's has not
    rest(longer, blender, blender_at, gauge, gauge_at)
}

// The part handed back of two recordings; the empty beginning of the blender's buffer where the pair is refused.
pub fn find_part(blender: &[u8], gauge: &[u8]) -> Part
    ensures { result ≡ (Comparison.compare_recordings_call blender.now gauge.now).value }
{
    let Ok(blenders) = count_entries(blender) else {
        return Part::Blender { from: 0, length: 0 };
    };
    let Ok(gauges) = count_entries(gauge) else {
        return Part::Blender { from: 0, length: 0 };
    };
    first_difference(blender, blenders, gauge, gauges)
}

// Checks two recordings, as volume reading does, the blender's first.
pub fn check_recordings(blender: &[u8], gauge: &[u8]) -> Result<(), Refusal>
    ensures { number_in result ≡ (Comparison.compare_recordings_call blender.now gauge.now).refusal }
{
    check_volume(blender)?;
    check_volume(gauge)
}

// Compares two recordings: hands back the bytes from the first place where they don't have the same entry to the end of one of them, as part of the
// buffer that it came in.
pub fn compare_recordings<'a>(blender: &'a [u8], gauge: &'a [u8]) -> &'a [u8]
    ensures { Parts.slice_of result
        ≡ Parts.slice_in blender.entry gauge.entry (Comparison.compare_recordings_call blender.now gauge.now).value }
{
    match find_part(blender, gauge) {
        Part::Blender { from, length } => &blender[from..from + length],
        Part::Gauge { from, length } => &gauge[from..from + length],
    }
}
