// The tables of cases, in text, a case a line, with refusals by their numbers, so that a line of a table says what the printed line says.

// Each number at both ends of its range, and beyond them; and on both sides of where its groups grow in number.
pub const READ_RANGES: &str = "\
count 0: 00: 9 gets 0
count 2000 and nothing more: d0 0f: 9 gets 16
count 2001 and nothing more: d1 0f: 9 gets 15
count 2097151: ff ff 7f: 9 gets 15
smallest entry: 01 00 00 00 01: 9 gets 0, 0 0 0 1
largest entry: 01 a0 0b a0 8d 06 90 4e 08: 9 gets 0, 1440 100000 10000 8
minutes 127: 01 7f 00 00 01: 9 gets 0, 127 0 0 1
minutes 128: 01 80 01 00 00 01: 9 gets 0, 128 0 0 1
minutes 1440: 01 a0 0b 00 00 01: 9 gets 0, 1440 0 0 1
minutes 1441: 01 a1 0b 00 00 01: 9 gets 15
minutes 2097151: 01 ff ff 7f 00 00 01: 9 gets 15
litres 127: 01 00 7f 00 01: 9 gets 0, 0 127 0 1
litres 128: 01 00 80 01 00 01: 9 gets 0, 0 128 0 1
litres 16383: 01 00 ff 7f 00 01: 9 gets 0, 0 16383 0 1
litres 16384: 01 00 80 80 01 00 01: 9 gets 0, 0 16384 0 1
litres 100000: 01 00 a0 8d 06 00 01: 9 gets 0, 0 100000 0 1
litres 100001: 01 00 a1 8d 06 00 01: 9 gets 15
litres 2097151: 01 00 ff ff 7f 00 01: 9 gets 15
ratio 127: 01 00 00 7f 01: 9 gets 0, 0 0 127 1
ratio 128: 01 00 00 80 01 01: 9 gets 0, 0 0 128 1
ratio 10000: 01 00 00 90 4e 01: 9 gets 0, 0 0 10000 1
ratio 10001: 01 00 00 91 4e 01: 9 gets 15
ratio 2097151: 01 00 00 ff ff 7f 01: 9 gets 15
product 0: 01 00 00 00 00: 9 gets 15
product 1: 01 00 00 00 01: 9 gets 0, 0 0 0 1
product 8: 01 00 00 00 08: 9 gets 0, 0 0 0 8
product 9: 01 00 00 00 09: 9 gets 15
product 2097151: 01 00 00 00 ff ff 7f: 9 gets 15
";

// Numbers with a group more than their value needs, also where the value is out of its range as well; and third groups that announce another.
pub const READ_GROUPS: &str = "\
count 0 in two groups: 80 00: 9 gets 14
count 0 in three groups: 80 80 00: 9 gets 14
count 1 in two groups: 81 00 00 00 00 01: 9 gets 14
count 2000 in three groups: d0 8f 00: 9 gets 14
count 2001 in three groups: d1 8f 00: 9 gets 14
minutes 0 in two groups: 01 80 00 00 00 01: 9 gets 14
minutes 1440 in three groups: 01 a0 8b 00 00 00 01: 9 gets 14
minutes 1441 in three groups: 01 a1 8b 00 00 00 01: 9 gets 14
litres 0 in two groups: 01 00 80 00 00 01: 9 gets 14
litres 127 in two groups: 01 00 ff 00 00 01: 9 gets 14
litres 16383 in three groups: 01 00 ff ff 00 00 01: 9 gets 14
litres 100000 in four groups: 01 00 a0 8d 86 00 00 01: 9 gets 14
litres 100001 in four groups: 01 00 a1 8d 86 00 00 01: 9 gets 14
ratio 0 in two groups: 01 00 00 80 00 01: 9 gets 14
ratio 10000 in three groups: 01 00 00 90 ce 00 01: 9 gets 14
ratio 10001 in three groups: 01 00 00 91 ce 00 01: 9 gets 14
product 0 in two groups: 01 00 00 00 80 00: 9 gets 14
product 1 in two groups: 01 00 00 00 81 00: 9 gets 14
product 8 in three groups: 01 00 00 00 88 80 00: 9 gets 14
product 9 in two groups: 01 00 00 00 89 00: 9 gets 14
count, third group announces another: 81 80 80 01 00 00 00 01: 9 gets 14
count, third group announces another, at the end: 80 80 80: 9 gets 14
minutes, third group announces another: 01 80 80 80 01 00 00 01: 9 gets 14
minutes, third group announces another, at the end: 01 80 80 80: 9 gets 14
litres, third group announces another: 01 00 80 80 80 01 00 01: 9 gets 14
litres, third group announces another, at the end: 01 00 80 80 80: 9 gets 14
ratio, third group announces another: 01 00 00 80 80 80 01 01: 9 gets 14
ratio, third group announces another, at the end: 01 00 00 80 80 80: 9 gets 14
product, third group announces another: 01 00 00 00 81 80 80 01: 9 gets 14
product, third group announces another, at the end: 01 00 00 00 81 80 80: 9 gets 14
";

// The volume that is cut, lengthened and put into lists of several sizes has two entries in 14 bytes: 1,000 litres at 525 of product 4 after no
// minutes, and 20,000 litres at 610 of product 2 after 15 minutes.

// The volume cut at every byte; numbers that are cut inside, also where no further group could bring them into their range; bytes after the volume;
// and lists of several sizes.
pub const READ_ENDS: &str = "\
cut at 0:: 9 gets 16
cut at 1: 02: 9 gets 16
cut at 2: 02 00: 9 gets 16
cut at 3: 02 00 e8: 9 gets 16
cut at 4: 02 00 e8 07: 9 gets 16
cut at 5: 02 00 e8 07 8d: 9 gets 16
cut at 6: 02 00 e8 07 8d 04: 9 gets 16
cut at 7: 02 00 e8 07 8d 04 04: 9 gets 16
cut at 8: 02 00 e8 07 8d 04 04 0f: 9 gets 16
cut at 9: 02 00 e8 07 8d 04 04 0f a0: 9 gets 16
cut at 10: 02 00 e8 07 8d 04 04 0f a0 9c: 9 gets 16
cut at 11: 02 00 e8 07 8d 04 04 0f a0 9c 01: 9 gets 16
cut at 12: 02 00 e8 07 8d 04 04 0f a0 9c 01 e2: 9 gets 16
cut at 13: 02 00 e8 07 8d 04 04 0f a0 9c 01 e2 04: 9 gets 16
count cut after a group: 80: 9 gets 16
count cut after two groups: ff ff: 9 gets 16
minutes cut after a group: 01 a1: 9 gets 16
minutes cut after two groups: 01 80 80: 9 gets 16
litres cut after two groups: 01 00 ff ff: 9 gets 16
ratio cut after two groups: 01 00 00 80 80: 9 gets 16
product cut after a group: 01 00 00 00 80: 9 gets 16
product cut after two groups: 01 00 00 00 89 80: 9 gets 16
a byte after no entry: 00 00: 9 gets 16
a byte after an entry: 01 00 00 00 01 00: 9 gets 16
an entry after an entry: 01 00 00 00 01 00 00 00 01: 9 gets 16
a byte after two entries: 02 00 e8 07 8d 04 04 0f a0 9c 01 e2 04 02 00: 9 gets 16
three bytes after two entries: 02 00 e8 07 8d 04 04 0f a0 9c 01 e2 04 02 ff ff ff: 9 gets 16
a byte after two entries, list one short: 02 00 e8 07 8d 04 04 0f a0 9c 01 e2 04 02 00: 7 gets 16
a byte after two entries, empty list: 02 00 e8 07 8d 04 04 0f a0 9c 01 e2 04 02 00: 0 gets 16
two entries, empty list: 02 00 e8 07 8d 04 04 0f a0 9c 01 e2 04 02: 0 gets 8
two entries, list for one: 02 00 e8 07 8d 04 04 0f a0 9c 01 e2 04 02: 4 gets 8
two entries, list one short: 02 00 e8 07 8d 04 04 0f a0 9c 01 e2 04 02: 7 gets 8
two entries, list just long enough: 02 00 e8 07 8d 04 04 0f a0 9c 01 e2 04 02: 8 gets 0, 0 1000 525 4 15 20000 610 2
two entries, list one longer: 02 00 e8 07 8d 04 04 0f a0 9c 01 e2 04 02: 9 gets 0, 0 1000 525 4 15 20000 610 2
two entries, list for four: 02 00 e8 07 8d 04 04 0f a0 9c 01 e2 04 02: 16 gets 0, 0 1000 525 4 15 20000 610 2
an entry, list one short: 01 00 00 00 01: 3 gets 8
an entry, list just long enough: 01 00 00 00 01: 4 gets 0, 0 0 0 1
no entry, empty list: 00: 0 gets 0
";

// Two faults: the first in reading order gives the refusal number, and a short list comes last.
pub const READ_ORDER: &str = "\
count 2001, minutes malformed: d1 0f 80 00: 9 gets 15
count malformed, minutes 1441: 81 00 a1 0b 00 00 01: 9 gets 14
minutes 1441, litres malformed: 01 a1 0b 80 00 00 01: 9 gets 15
minutes malformed, litres 100001: 01 80 00 a1 8d 06 00 01: 9 gets 14
litres 100001, ratio malformed: 01 00 a1 8d 06 80 00 01: 9 gets 15
litres malformed, ratio 10001: 01 00 80 00 91 4e 01: 9 gets 14
ratio 10001, product malformed: 01 00 00 91 4e 81 00: 9 gets 15
ratio malformed, product 9: 01 00 00 80 00 09: 9 gets 14
product 9, next minutes malformed: 02 00 00 00 09 80 00 00 00 01: 9 gets 15
product malformed, next minutes 1441: 02 00 00 00 81 00 a1 0b 00 00 01: 9 gets 14
minutes 1441, litres in four groups: 01 a1 0b 80 80 80 01 00 01: 9 gets 15
minutes in four groups, litres 100001: 01 80 80 80 01 a1 8d 06 00 01: 9 gets 14
minutes 1441 and nothing more: 01 a1 0b: 9 gets 15
litres 100001 and nothing more: 01 00 a1 8d 06: 9 gets 15
ratio 10001 and nothing more: 01 00 00 91 4e: 9 gets 15
product 9 and nothing more: 02 00 00 00 09: 9 gets 15
minutes malformed and nothing more: 01 80 00: 9 gets 14
litres malformed and nothing more: 01 00 80 00: 9 gets 14
ratio malformed and nothing more: 01 00 00 80 00: 9 gets 14
product malformed and nothing more: 02 00 00 00 81 00: 9 gets 14
product 9 and a byte after the entry: 01 00 00 00 09 00: 9 gets 15
product malformed and a byte after the entry: 01 00 00 00 81 00 00: 9 gets 14
product 9, empty list: 01 00 00 00 09: 0 gets 15
product malformed, empty list: 01 00 00 00 81 00: 0 gets 14
product missing, empty list: 01 00 00 00: 0 gets 16
next minutes 1441, list for one: 02 00 00 00 01 a1 0b 00 00 01: 4 gets 15
next minutes malformed, list for one: 02 00 00 00 01 80 00 00 00 01: 4 gets 14
next minutes missing, list for one: 02 00 00 00 01: 4 gets 16
";

// Each number at both ends of its range, and beyond them; and on both sides of where its groups grow in number. Then lists that are not whole
// entries; lent bytes of several lengths; and two faults, of which the first gives the refusal number.
pub const WRITE: &str = "\
smallest entry: 01 00 00 00 01: 9 gets 0, 0 0 0 1
largest entry: 01 a0 0b a0 8d 06 90 4e 08: 9 gets 0, 1440 100000 10000 8
minutes 127: 01 7f 00 00 01: 9 gets 0, 127 0 0 1
minutes 128: 01 80 01 00 00 01: 9 gets 0, 128 0 0 1
minutes 1440: 01 a0 0b 00 00 01: 9 gets 0, 1440 0 0 1
minutes 1441:: 9 gets 15, 1441 0 0 1
minutes 4294967295:: 9 gets 15, 4294967295 0 0 1
litres 127: 01 00 7f 00 01: 9 gets 0, 0 127 0 1
litres 128: 01 00 80 01 00 01: 9 gets 0, 0 128 0 1
litres 16383: 01 00 ff 7f 00 01: 9 gets 0, 0 16383 0 1
litres 16384: 01 00 80 80 01 00 01: 9 gets 0, 0 16384 0 1
litres 100000: 01 00 a0 8d 06 00 01: 9 gets 0, 0 100000 0 1
litres 100001:: 9 gets 15, 0 100001 0 1
litres 4294967295:: 9 gets 15, 0 4294967295 0 1
ratio 127: 01 00 00 7f 01: 9 gets 0, 0 0 127 1
ratio 128: 01 00 00 80 01 01: 9 gets 0, 0 0 128 1
ratio 10000: 01 00 00 90 4e 01: 9 gets 0, 0 0 10000 1
ratio 10001:: 9 gets 15, 0 0 10001 1
ratio 4294967295:: 9 gets 15, 0 0 4294967295 1
product 0:: 9 gets 15, 0 0 0 0
product 1: 01 00 00 00 01: 9 gets 0, 0 0 0 1
product 8: 01 00 00 00 08: 9 gets 0, 0 0 0 8
product 9:: 9 gets 15, 0 0 0 9
product 4294967295:: 9 gets 15, 0 0 0 4294967295
next minutes 1441:: 16 gets 15, 0 0 0 1 1441 0 0 1
next product 0:: 16 gets 15, 0 0 0 1 0 0 0 0
one number:: 9 gets 16, 0
two numbers:: 9 gets 16, 0 0
three numbers:: 9 gets 16, 0 0 0
five numbers:: 9 gets 16, 0 0 0 1 0
six numbers:: 9 gets 16, 0 0 0 1 0 0
seven numbers:: 9 gets 16, 0 0 0 1 0 0 0
one number, out of range, none lent:: 0 gets 16, 1441
two numbers, out of range, none lent:: 0 gets 16, 1441 100001
three numbers, out of range, none lent:: 0 gets 16, 1441 100001 10001
five numbers, out of range, none lent:: 0 gets 16, 1441 100001 10001 0 1441
six numbers, out of range, none lent:: 0 gets 16, 1441 100001 10001 0 1441 100001
seven numbers, out of range, none lent:: 0 gets 16, 1441 100001 10001 0 1441 100001 10001
minutes 1441, none lent:: 0 gets 15, 1441 0 0 1
litres 100001, none lent:: 0 gets 15, 0 100001 0 1
ratio 10001, none lent:: 0 gets 15, 0 0 10001 1
product 0, none lent:: 0 gets 15, 0 0 0 0
next product 9, none lent:: 0 gets 15, 0 0 0 1 0 0 0 9
two entries, none lent:: 0 gets 8, 0 1000 525 4 15 20000 610 2
two entries, lent for one:: 7 gets 8, 0 1000 525 4 15 20000 610 2
two entries, one byte too few:: 13 gets 8, 0 1000 525 4 15 20000 610 2
two entries, just enough lent: 02 00 e8 07 8d 04 04 0f a0 9c 01 e2 04 02: 14 gets 0, 0 1000 525 4 15 20000 610 2
two entries, one byte more: 02 00 e8 07 8d 04 04 0f a0 9c 01 e2 04 02: 15 gets 0, 0 1000 525 4 15 20000 610 2
two entries, ten bytes more: 02 00 e8 07 8d 04 04 0f a0 9c 01 e2 04 02: 24 gets 0, 0 1000 525 4 15 20000 610 2
no entry, none lent:: 0 gets 8
no entry, one byte lent: 00: 1 gets 0
no entry, nine bytes lent: 00: 9 gets 0
";

// The document's example; each product's rate; amounts on both sides of a whole cent, alone and several of them; no duty at all; volumes that differ
// in one ratio; refusals after an entry that owes some; and products out of range.
pub const DUTY: &str = "\
1000 litres at 525 of product 4: 01 00 e8 07 8d 04 04: gets 0 owes 3150
the same after 15 minutes: 01 0f e8 07 8d 04 04: gets 0 owes 3150
1000 litres at 525 of product 4 and 20000 at 610 of product 2: 02 00 e8 07 8d 04 04 0f a0 9c 01 e2 04 02: gets 0 owes 119050
no entry: 00: gets 0 owes 0
100 litres at 10000 of product 1: 01 00 64 90 4e 01: gets 0 owes 12000
100 litres at 10000 of product 2: 01 00 64 90 4e 02: gets 0 owes 9500
100 litres at 10000 of product 3: 01 00 64 90 4e 03: gets 0 owes 9500
100 litres at 10000 of product 4: 01 00 64 90 4e 04: gets 0 owes 6000
100 litres at 10000 of product 5: 01 00 64 90 4e 05: gets 0 owes 4000
100 litres at 10000 of product 6: 01 00 64 90 4e 06: gets 0 owes 4000
100 litres at 10000 of product 7: 01 00 64 90 4e 07: gets 0 owes 1500
100 litres at 10000 of product 8: 01 00 64 90 4e 08: gets 0 owes 0
100000 litres at 10000 of product 1: 01 00 a0 8d 06 90 4e 01: gets 0 owes 12000000
100000 litres at 10000 of product 8: 01 00 a0 8d 06 90 4e 08: gets 0 owes 0
0 litres at 10000 of product 1: 01 00 00 90 4e 01: gets 0 owes 0
100000 litres at 0 of product 1: 01 00 a0 8d 06 00 01: gets 0 owes 0
1 litre at 83 of product 1, 9960 ten-thousandths of a cent: 01 00 01 53 01: gets 0 owes 0
1 litre at 84 of product 1, 10080: 01 00 01 54 01: gets 0 owes 1
1 litre at 666 of product 7, 9990: 01 00 01 9a 05 07: gets 0 owes 0
1 litre at 667 of product 7, 10005: 01 00 01 9b 05 07: gets 0 owes 1
1 litre at 500 of product 5, 20000: 01 00 01 f4 03 05: gets 0 owes 2
83 litres at 1 of product 1, 9960: 01 00 53 01 01: gets 0 owes 0
twice 9960: 02 00 01 53 01 00 01 53 01: gets 0 owes 0
three times 9990: 03 00 01 9a 05 07 00 01 9a 05 07 00 01 9a 05 07: gets 0 owes 0
9960 and 10080: 02 00 01 53 01 00 01 54 01: gets 0 owes 1
10080 and 9960: 02 00 01 54 01 00 01 53 01: gets 0 owes 1
twice 10080: 02 00 01 54 01 00 01 54 01: gets 0 owes 2
1000 litres at 526 of product 4, 6 cents more than at 525: 01 00 e8 07 8e 04 04: gets 0 owes 3156
1000 litres at 524 of product 4, 6 cents less than at 525: 01 00 e8 07 8c 04 04: gets 0 owes 3144
1000 litres at 127 of product 4, the last ratio of one group: 01 00 e8 07 7f 04: gets 0 owes 762
1000 litres at 128 of product 4, 6 cents more than at 127: 01 00 e8 07 80 01 04: gets 0 owes 768
1 litre at 666 of product 7 between two of 3150 cents: 03 00 e8 07 8d 04 04 00 01 9a 05 07 00 e8 07 8d 04 04: gets 0 owes 6300
1 litre at 667 of product 7 between two of 3150 cents, 1 cent more: 03 00 e8 07 8d 04 04 00 01 9b 05 07 00 e8 07 8d 04 04: gets 0 owes 6301
1 litre at 668 of product 7 between two of 3150 cents, none more than at 667: 03 00 e8 07 8d 04 04 00 01 9c 05 07 00 e8 07 8d 04 04: gets 0 owes 6301
3150 cents, next minutes malformed: 02 00 e8 07 8d 04 04 80 00 00 00 01: gets 14 owes 0
3150 cents, next litres 100001: 02 00 e8 07 8d 04 04 00 a1 8d 06 00 01: gets 15 owes 0
3150 cents, next product 9: 02 00 e8 07 8d 04 04 00 00 00 09: gets 15 owes 0
3150 cents, next product missing: 02 00 e8 07 8d 04 04 00 00 00: gets 16 owes 0
3150 cents, next entry missing: 02 00 e8 07 8d 04 04: gets 16 owes 0
3150 cents and a byte after the entry: 01 00 e8 07 8d 04 04 00: gets 16 owes 0
product 0: 01 00 e8 07 8d 04 00: gets 15 owes 0
product 9: 01 00 e8 07 8d 04 09: gets 15 owes 0
";

// Tables that load: of no pairs, of all eight, with gaps; and rates at both ends of their range and on both sides of where their groups grow in
// number.
pub const LOAD_RATES: &str = "\
no pairs: 00: gets 0, 0 0 0 0 0 0 0 0
all eight: 08 01 01 02 02 03 03 04 04 05 05 06 06 07 07 08 08: gets 0, 1 2 3 4 5 6 7 8
our rates: 08 01 78 02 5f 03 5f 04 3c 05 28 06 28 07 0f 08 00: gets 0, 120 95 95 60 40 40 15 0
eight rates of 65535: 08 01 ff ff 03 02 ff ff 03 03 ff ff 03 04 ff ff 03 05 ff ff 03 06 ff ff 03 07 ff ff 03 08 ff ff 03: gets 0, 65535 65535 65535 65535 65535 65535 65535 65535
product 1: 01 01 07: gets 0, 7 0 0 0 0 0 0 0
product 4: 01 04 07: gets 0, 0 0 0 7 0 0 0 0
product 8: 01 08 07: gets 0, 0 0 0 0 0 0 0 7
products 2 and 4: 02 02 c8 01 04 46: gets 0, 0 200 0 70 0 0 0 0
products 1 and 8: 02 01 05 08 06: gets 0, 5 0 0 0 0 0 0 6
products 7 and 8: 02 07 05 08 06: gets 0, 0 0 0 0 0 0 5 6
products 1, 3, 5 and 7: 04 01 0b 03 0d 05 0f 07 11: gets 0, 11 0 13 0 15 0 17 0
products 2, 4, 6 and 8: 04 02 0c 04 0e 06 10 08 12: gets 0, 0 12 0 14 0 16 0 18
all but product 5: 07 01 01 02 02 03 03 04 04 06 06 07 07 08 08: gets 0, 1 2 3 4 0 6 7 8
rate 0: 01 03 00: gets 0, 0 0 0 0 0 0 0 0
rate 1: 01 03 01: gets 0, 0 0 1 0 0 0 0 0
rate 127: 01 03 7f: gets 0, 0 0 127 0 0 0 0 0
rate 128: 01 03 80 01: gets 0, 0 0 128 0 0 0 0 0
rate 16383: 01 03 ff 7f: gets 0, 0 0 16383 0 0 0 0 0
rate 16384: 01 03 80 80 01: gets 0, 0 0 16384 0 0 0 0 0
rate 65535: 01 03 ff ff 03: gets 0, 0 0 65535 0 0 0 0 0
";

// Numbers out of their range, not in shortest form, or with a third group that announces another; products that are not above the one before; bytes
// that are missing or left over.
pub const LOAD_FAULTS: &str = "\
count 9 and nothing more: 09: gets 24
count 9 and eight pairs: 09 01 01 02 02 03 03 04 04 05 05 06 06 07 07 08 08: gets 24
count 128: 80 01: gets 24
count 2097151: ff ff 7f: gets 24
product 0: 01 00 05: gets 24
product 9: 01 09 05: gets 24
product 128: 01 80 01 05: gets 24
product 2097151: 01 ff ff 7f 05: gets 24
product 0 after 1: 02 01 05 00 05: gets 24
product 0 after 4: 02 04 05 00 05: gets 24
product 9 after 4: 02 04 05 09 05: gets 24
product 9 after 8: 02 08 05 09 05: gets 24
product 0 after 4 and 6: 03 04 05 06 05 00 05: gets 24
rate 65536: 01 03 80 80 04: gets 24
rate 65536 after a pair: 02 01 05 03 80 80 04: gets 24
rate 2097151: 01 03 ff ff 7f: gets 24
product 1 after 1: 02 01 05 01 05: gets 25
product 4 after 4: 02 04 05 04 05: gets 25
product 4 after 4 with another rate: 02 04 05 04 06: gets 25
product 8 after 8: 02 08 05 08 05: gets 25
product 3 after 4: 02 04 05 03 05: gets 25
product 1 after 8: 02 08 05 01 05: gets 25
product 2 after 1 and 2: 03 01 05 02 05 02 05: gets 25
product 1 after 1 and 2: 03 01 05 02 05 01 05: gets 25
product 8 after all but product 7: 08 01 01 02 02 03 03 04 04 05 05 06 06 08 08 08 08: gets 25
count 0 in two groups: 80 00: gets 24
count 1 in two groups: 81 00 03 05: gets 24
count 9 in two groups: 89 00: gets 24
product 3 in two groups: 01 83 00 05: gets 24
product 3 in three groups: 01 83 80 00 05: gets 24
product 3 in two groups after 4: 02 04 05 83 00 05: gets 24
product 4 in two groups after 4: 02 04 05 84 00 05: gets 24
rate 5 in two groups: 01 03 85 00: gets 24
rate 65535 in four groups: 01 03 ff ff 83 00: gets 24
rate 65536 in four groups: 01 03 80 80 84 00: gets 24
count, third group announces another: 81 80 80 00 03 05: gets 24
count, third group announces another, at the end: 80 80 80: gets 24
product, third group announces another: 01 83 80 80 00 05: gets 24
product, third group announces another, at the end: 01 83 80 80: gets 24
rate, third group announces another: 01 03 85 80 80 00: gets 24
rate, third group announces another, at the end: 01 03 85 80 80: gets 24
cut at 0:: gets 24
cut at 1: 02: gets 24
cut at 2: 02 02: gets 24
cut at 3: 02 02 c8: gets 24
cut at 4: 02 02 c8 01: gets 24
cut at 5: 02 02 c8 01 04: gets 24
count cut after a group: 80: gets 24
count cut after two groups: 80 80: gets 24
product cut after a group: 01 83: gets 24
rate cut after two groups: 01 03 85 80: gets 24
third pair missing: 03 03 05 04 05: gets 24
count 8 and seven pairs: 08 01 01 02 02 03 03 04 04 05 05 06 06 07 07: gets 24
a byte after no pairs: 00 00: gets 24
a byte after a pair: 01 03 05 00: gets 24
a pair after a pair: 01 03 05 04 05: gets 24
a byte after two pairs: 02 02 c8 01 04 46 ff: gets 24
a byte after all eight: 08 01 01 02 02 03 03 04 04 05 05 06 06 07 07 08 08 00: gets 24
";

// Two faults: the first in reading order gives the refusal number.
pub const LOAD_ORDER: &str = "\
count 9, product 4 after 4: 09 04 05 04 05: gets 24
count in two groups, product 4 after 4: 82 00 04 05 04 05: gets 24
product 9, then 4 after 4: 03 09 05 04 05 04 05: gets 24
product 4 after 4, then 9: 03 04 05 04 05 09 05: gets 25
rate 65536, product 3 after 4: 02 04 80 80 04 03 05: gets 24
product 3 after 4, rate 65536: 02 04 05 03 80 80 04: gets 25
rate in two groups, product 3 after 4: 02 04 85 00 03 05: gets 24
product 3 after 4, rate in two groups: 02 04 05 03 85 00: gets 25
product 3 after 4 and nothing more: 02 04 05 03: gets 25
product 3 after 4, rate cut: 02 04 05 03 85: gets 25
product 3 after 4, third pair missing: 03 04 05 03 05: gets 25
product 3 after 4, a byte after the pairs: 02 04 05 03 05 00: gets 25
product 0 after 4 and nothing more: 02 04 05 00: gets 24
product 9 after 4, a byte after the pairs: 02 04 05 09 05 00: gets 24
";

// Enciphering from 0, from inside a word, on both sides of the mark, of no entry, and up to the limit. Then each refusal of cipher, where the volume
// is sound, and each of the volume's before it; and cipher's own, each before the next.
pub const ENCIPHER: &str = "\
two from 0: 02 00 e8 07 8d 04 04 0f a0 9c 01 e2 04 02: 1 at 0 mark 0 change 0 short 0 gets 0 at 14 mark 14, 0 1000 525 4 15 20000 610 2
two from 14: 02 00 e8 07 8d 04 04 0f a0 9c 01 e2 04 02: 1 at 14 mark 14 change 0 short 0 gets 0 at 28 mark 28, 0 1000 525 4 15 20000 610 2
two below the mark: 02 00 e8 07 8d 04 04 0f a0 9c 01 e2 04 02: 1 at 3 mark 28 change 0 short 0 gets 0 at 17 mark 28, 0 1000 525 4 15 20000 610 2
two across the mark: 02 00 e8 07 8d 04 04 0f a0 9c 01 e2 04 02: 1 at 3 mark 16 change 0 short 0 gets 0 at 17 mark 17, 0 1000 525 4 15 20000 610 2
no entry: 00: 1 at 7 mark 7 change 0 short 0 gets 0 at 8 mark 8
to the limit: 01 00 00 00 01: 1 at 67108859 mark 9 change 0 short 0 gets 0 at 67108864 mark 67108864, 0 0 0 1
to the limit, mark over it: 01 00 00 00 01: 1 at 67108859 mark 4294967295 change 0 short 0 gets 0 at 67108864 mark 4294967295, 0 0 0 1
fresh head, volume cut: 01 00 00 00: 0 at 0 mark 0 change 0 short 0 gets 16
fresh head, a byte after the volume: 01 00 00 00 01 00: 0 at 0 mark 0 change 0 short 0 gets 16
fresh head, product malformed: 01 00 00 00 81 00: 0 at 0 mark 0 change 0 short 0 gets 14
fresh head, product 9: 01 00 00 00 09: 0 at 0 mark 0 change 0 short 0 gets 15
fresh head, sound volume: 01 00 00 00 01: 0 at 0 mark 0 change 0 short 0 gets 1
short area, volume cut: 01 00 00 00: 1 at 20 mark 20 change 0 short 1 gets 16
short area, a byte after the volume: 01 00 00 00 01 00: 1 at 20 mark 20 change 0 short 1 gets 16
short area, product malformed: 01 00 00 00 81 00: 1 at 20 mark 20 change 0 short 1 gets 14
short area, product 9: 01 00 00 00 09: 1 at 20 mark 20 change 0 short 1 gets 15
short area, sound volume: 01 00 00 00 01: 1 at 20 mark 20 change 0 short 1 gets 4
over the limit, volume cut: 01 00 00 00: 1 at 67108865 mark 9 change 0 short 0 gets 16
over the limit, a byte after the volume: 01 00 00 00 01 00: 1 at 67108865 mark 9 change 0 short 0 gets 16
over the limit, product malformed: 01 00 00 00 81 00: 1 at 67108865 mark 9 change 0 short 0 gets 14
over the limit, product 9: 01 00 00 00 09: 1 at 67108865 mark 9 change 0 short 0 gets 15
over the limit, sound volume: 01 00 00 00 01: 1 at 67108865 mark 9 change 0 short 0 gets 5
false word, volume cut: 01 00 00 00: 1 at 20 mark 20 change 1 short 0 gets 16
false word, a byte after the volume: 01 00 00 00 01 00: 1 at 20 mark 20 change 1 short 0 gets 16
false word, product malformed: 01 00 00 00 81 00: 1 at 20 mark 20 change 1 short 0 gets 14
false word, product 9: 01 00 00 00 09: 1 at 20 mark 20 change 1 short 0 gets 15
false word, sound volume: 01 00 00 00 01: 1 at 20 mark 20 change 1 short 0 gets 13
at the limit, volume cut: 01 00 00 00: 1 at 67108864 mark 9 change 0 short 0 gets 16
at the limit, a byte after the volume: 01 00 00 00 01 00: 1 at 67108864 mark 9 change 0 short 0 gets 16
at the limit, product malformed: 01 00 00 00 81 00: 1 at 67108864 mark 9 change 0 short 0 gets 14
at the limit, product 9: 01 00 00 00 09: 1 at 67108864 mark 9 change 0 short 0 gets 15
at the limit, sound volume: 01 00 00 00 01: 1 at 67108864 mark 9 change 0 short 0 gets 6
fresh head and short area: 01 00 00 00 01: 0 at 0 mark 0 change 0 short 1 gets 1
over the limit and short area: 01 00 00 00 01: 1 at 67108865 mark 9 change 0 short 1 gets 4
over the limit and false word: 01 00 00 00 01: 1 at 67108865 mark 9 change 1 short 0 gets 5
false word at 0: 01 00 00 00 01: 1 at 0 mark 0 change 1 short 0 gets 13
at the limit and false word: 01 00 00 00 01: 1 at 67108864 mark 9 change 1 short 0 gets 13
to one byte past the limit: 01 00 00 00 01: 1 at 67108860 mark 9 change 0 short 0 gets 6
";

// Volumes.
pub const SOUND: &str = "\
no entry: 00:
smallest entry: 01 00 00 00 01:
largest entry: 01 a0 0b a0 8d 06 90 4e 08:
two entries: 02 00 e8 07 8d 04 04 0f a0 9c 01 e2 04 02:
";

// Strings that are cut: before the first number, after whole numbers, also at the ends of their ranges, and inside numbers, after groups that some
// number in the range begins with.
pub const CUT: &str = "\
empty string::
count 1: 01:
count 1999: cf 0f:
count 2000: d0 0f:
count, first group 0: 80:
count, first group 127: ff:
count 1920: 80 0f:
minutes, first group 127: 01 ff:
minutes, second group 10: 01 ff 0a:
minutes 1439: 01 9f 0b:
minutes 1440: 01 a0 0b:
litres, first group 127: 01 00 ff:
litres, two groups of 0: 01 00 80 80:
litres, two groups of 127: 01 00 ff ff:
litres, third group 5: 01 00 ff ff 05:
litres, third group 6, second 12: 01 00 ff 8c 06:
litres 99999: 01 00 9f 8d 06:
litres 100000: 01 00 a0 8d 06:
ratio, first group 127: 01 00 00 ff:
ratio, second group 77: 01 00 00 ff 4d:
ratio 9999: 01 00 00 8f 4e:
ratio 10000: 01 00 00 90 4e:
product 8, an entry missing: 02 00 00 00 08:
two entries, last byte missing: 02 00 e8 07 8d 04 04 0f a0 9c 01 e2 04:
";

// Strings that are hopeless: at a last group, at a group that announces another where no number in the range begins with these groups, and at the
// first byte after the last entry. Of two faults the first one counts.
pub const HOPELESS: &str = "\
count 2001: d1 0f: at 2
count, second group 16: 80 10: at 2
count, last group 0: 80 00: at 2
count, second group announces a third: 80 80: at 2
count 2000 in three groups: d0 8f 00: at 2
count, third group announces another: 81 80 80 01 00 00 00 01: at 2
minutes 1441: 01 a1 0b: at 3
minutes, second group 12: 01 80 0c: at 3
minutes, last group 0: 01 80 00: at 3
minutes, second group announces a third: 01 80 80 01 00 00 01: at 3
minutes 1440 in three groups: 01 a0 8b 00: at 3
litres 100001: 01 00 a1 8d 06: at 5
litres, third group 6, second 14: 01 00 80 8e 06: at 5
litres, third group 7: 01 00 80 80 07: at 5
litres, last of two groups 0: 01 00 80 00: at 4
litres, last of three groups 0: 01 00 80 80 00: at 5
litres, third group announces another: 01 00 80 80 80 01 00 01: at 5
ratio 10001: 01 00 00 91 4e: at 5
ratio, second group 79: 01 00 00 80 4f: at 5
ratio, last group 0: 01 00 00 80 00: at 5
ratio, second group announces a third: 01 00 00 80 80: at 5
ratio 10000 in three groups: 01 00 00 90 ce 00 01: at 5
ratio, third group announces another: 01 00 00 80 80 80: at 5
product 0: 01 00 00 00 00: at 5
product 9: 01 00 00 00 09: at 5
product 127: 01 00 00 00 7f: at 5
product, first group announces a second: 01 00 00 00 80: at 5
product 1 in two groups: 01 00 00 00 81 00: at 5
second entry, minutes 1441: 02 00 00 00 01 a1 0b: at 7
second entry, litres 100001: 02 00 00 00 01 00 a1 8d 06: at 9
second entry, ratio's second group announces a third: 02 00 00 00 01 00 00 80 80: at 9
second entry, product 9: 02 00 00 00 01 00 00 00 09: at 9
a byte after no entry: 00 00: at 2
a byte after an entry: 01 00 00 00 01 00: at 6
three bytes after an entry: 01 00 00 00 01 ff ff ff: at 6
an entry after an entry: 01 00 00 00 01 00 00 00 01: at 6
count 2001, minutes 1441: d1 0f a1 0b: at 2
minutes 1441, product 9: 01 a1 0b 00 00 09: at 3
product 9, a byte after it: 01 00 00 00 09 00: at 5
";
