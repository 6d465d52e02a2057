// Recordings of many entries, whose counts have one byte and two, so that the same entries stand at different places. Each number of an entry is 1,
// so that an entry has four bytes, but for one number that is named.
use crate::pairs::{Pair, blenders, gauges};
use crate::volume_of;
use std::io;

// A count of 127 has one byte, and one of 128 has two.
pub fn around_128(rt: &impl Print) -> io::Result<()> {
    let mut list = [1u32; 512];
    let of_128 = volume_of::<514>(&list);
    let of_127 = volume_of::<509>(&list[..508]);
    list[506] = 2; // the ratio of the last entry of 127
    let ratio_2 = volume_of::<509>(&list[..508]);
    list[506] = 1;
    list[505] = 2; // the litres of the last entry of 127
    let litres_2 = volume_of::<509>(&list[..508]);
    for pair in [
        Pair::new("127 entries, 128", &of_127, &of_128, gauges(510, 4)),
        Pair::new("128 entries, 127", &of_128, &of_127, blenders(510, 4)),
        Pair::new(
            "127 entries, the last of ratio 2, 128",
            &ratio_2,
            &of_128,
            gauges(506, 8),
        ),
        Pair::new(
            "128 entries, 127, the last of ratio 2",
            &of_128,
            &ratio_2,
            blenders(506, 8),
        ),
        Pair::new(
            "127 entries, 127, the last of ratio 2",
            &of_127,
            &ratio_2,
            blenders(505, 4),
        ),
        Pair::new(
            "127 entries, the last of 2 litres, 128",
            &litres_2,
            &of_128,
            blenders(505, 4),
        ),
        Pair::new(
            "128 entries, 127, the last of 2 litres",
            &of_128,
            &litres_2,
            blenders(506, 8),
        ),
        Pair::new(
            "127 entries, the last of ratio 2, 127, the last of 2 litres",
            &ratio_2,
            &litres_2,
            gauges(505, 4),
        ),
    ] {
        pair.run(rt)?;
    }
    Ok(())
}

// The most entries.
pub fn most(rt: &impl Print) -> io::Result<()> {
    let mut list = [1u32; 8000];
    let all = volume_of::<8002>(&list);
    let but_one = volume_of::<7998>(&list[..7996]);
    list[7998] = 0; // the ratio of the last entry
    let ratio_0 = volume_of::<8002>(&list);
    for pair in [
        Pair::new("2000 entries, the same", &all, &all, blenders(8002, 0)),
        Pair::new("2000 entries, 1999", &all, &but_one, blenders(7998, 4)),
        Pair::new("1999 entries, 2000", &but_one, &all, gauges(7998, 4)),
        Pair::new(
            "2000 entries, 2000, the last of ratio 0",
            &all,
            &ratio_0,
            gauges(7998, 4),
        ),
    ] {
        pair.run(rt)?;
    }
    Ok(())
}
