// Damaged files, and the refusal that the rules give for each.
use crate::build::Change::{Byte, Length, Word};
use crate::build::{Case, Counts, Refusal};

// A board with so many nets, ports, gates and watched nets.
macro_rules! counts {
    ($nets:expr, $ports:expr, $gates:expr, $watched:expr) => {
        Counts {
            nets: $nets,
            ports: $ports,
            gates: $gates,
            watched: $watched,
        }
    };
}

// A changed file that is accepted.
macro_rules! accepted {
    ($board:expr, $changes:expr) => {
        Case {
            board: $board,
            changes: &$changes,
            refusal: None,
        }
    };
}

// A changed file that is refused by this number, with this place.
macro_rules! refused {
    ($number:expr, $place:expr, $board:expr, $changes:expr) => {
        Case {
            board: $board,
            changes: &$changes,
            refusal: Some(Refusal {
                number: $number,
                place: $place,
            }),
        }
    };
}

// the smallest board, and what a fresh place holds
pub(crate) const TINY: Counts = counts!(1, 1, 0, 1);
// a port and a gate
const TWO: Counts = counts!(2, 1, 1, 2);
// a gate of each kind
const ELEVEN: Counts = counts!(11, 0, 11, 11);
// every count at its greatest, no port
const FULL: Counts = counts!(1024, 0, 1024, 1024);
// ports alone
const PORTS: Counts = counts!(1024, 1024, 0, 1024);
// 1,024 gates on one net
const CROWD: Counts = counts!(1, 1, 1024, 1);
// one gate on its own output
const LOOP: Counts = counts!(1, 0, 1, 1);
// ports that gates drive too
const WIDE: Counts = counts!(1024, 1024, 1024, 1);
// the last net is the only output
const LAST: Counts = counts!(1024, 1023, 1, 1);
// one watched net of 1,024
const FEW: Counts = counts!(1024, 0, 1024, 1);
// one watched net of two
const SPARSE: Counts = counts!(2, 1, 1, 1);
// one net that nothing drives
const BARE: Counts = counts!(1, 0, 0, 1);
// two nets that nothing drives
const THREE: Counts = counts!(3, 1, 0, 1);
// nothing drives the last net
const GAP: Counts = counts!(1024, 1023, 0, 1);
// nothing drives any net
const EMPTY: Counts = counts!(1024, 0, 0, 1024);

pub(crate) const CASES: &[Case] = &[
    // Accepted: the counts at their bounds, each kind, the greatest nets and both bounds of the delay.
    accepted!(TINY, []),
    accepted!(TWO, []),
    accepted!(ELEVEN, []),
    accepted!(FULL, []),
    accepted!(PORTS, []),
    accepted!(CROWD, []),
    accepted!(LOOP, []),
    accepted!(WIDE, []),
    accepted!(LAST, []),
    accepted!(FEW, []),
    accepted!(SPARSE, []),
    accepted!(TWO, [Byte(13, 2)]),
    accepted!(TWO, [Byte(13, 3), Word(16, 1)]),
    accepted!(TWO, [Byte(13, 4), Word(16, 1)]),
    accepted!(TWO, [Byte(13, 5), Word(16, 1)]),
    accepted!(TWO, [Byte(13, 6), Word(16, 1)]),
    accepted!(TWO, [Byte(13, 7), Word(16, 1)]),
    accepted!(TWO, [Byte(13, 8), Word(16, 1)]),
    accepted!(TWO, [Byte(13, 9), Word(16, 1)]),
    accepted!(TWO, [Byte(13, 10), Word(14, 0)]),
    accepted!(TWO, [Byte(13, 11), Word(14, 0)]),
    accepted!(FULL, [Word(20, 64)]),
    accepted!(FULL, [Word(9227, 1)]),
    accepted!(FEW, [Word(9229, 1023)]),
    accepted!(SPARSE, [Word(22, 1)]),
    // 1: fewer than 13 bytes, placed at the length. With 13 the file is long enough to be judged.
    refused!(1, 0, TINY, [Length(0)]),
    refused!(1, 1, TINY, [Length(1)]),
    refused!(1, 12, TINY, [Length(12)]),
    refused!(1, 0, FULL, [Length(0)]),
    refused!(1, 12, FULL, [Length(12)]),
    // 2: the mark, one off on both sides of each of its bytes, placed at 0.
    refused!(2, 0, TINY, [Byte(0, 0x4d)]),
    refused!(2, 0, TINY, [Byte(0, 0x4f)]),
    refused!(2, 0, TINY, [Byte(0, 0x0)]),
    refused!(2, 0, TINY, [Byte(0, 0x6e)]),
    refused!(2, 0, TINY, [Byte(1, 0x4b)]),
    refused!(2, 0, TINY, [Byte(1, 0x4d)]),
    refused!(2, 0, TINY, [Byte(2, 0x41)]),
    refused!(2, 0, TINY, [Byte(2, 0x43)]),
    refused!(2, 0, TINY, [Byte(2, 0xff)]),
    refused!(2, 0, FULL, [Byte(0, 0x4f)]),
    refused!(2, 0, FULL, [Byte(2, 0x41)]),
    // 3: the version, placed at 3.
    refused!(3, 3, TINY, [Word(3, 0)]),
    refused!(3, 3, TINY, [Word(3, 2)]),
    refused!(3, 3, TINY, [Word(3, 256)]),
    refused!(3, 3, TINY, [Word(3, 257)]),
    refused!(3, 3, TINY, [Word(3, 65535)]),
    refused!(3, 3, FULL, [Word(3, 0)]),
    refused!(3, 3, FULL, [Word(3, 2)]),
    // 4: the counts, placed at the first wrong one.
    refused!(4, 5, TINY, [Word(5, 0)]),
    refused!(4, 5, TINY, [Word(5, 1025)]),
    refused!(4, 5, TINY, [Word(5, 65535)]),
    refused!(4, 5, FULL, [Word(5, 1025)]),
    refused!(4, 5, PORTS, [Word(5, 0)]),
    refused!(4, 7, PORTS, [Word(5, 1023)]),
    refused!(4, 11, FULL, [Word(5, 1023)]),
    refused!(4, 7, TINY, [Word(7, 2)]),
    refused!(4, 7, TINY, [Word(7, 65535)]),
    refused!(4, 7, FULL, [Word(7, 1025)]),
    refused!(4, 7, PORTS, [Word(7, 1025)]),
    refused!(4, 9, TINY, [Word(9, 1025)]),
    refused!(4, 9, TINY, [Word(9, 65535)]),
    refused!(4, 9, FULL, [Word(9, 1025)]),
    refused!(4, 11, TINY, [Word(11, 0)]),
    refused!(4, 11, TINY, [Word(11, 2)]),
    refused!(4, 11, TINY, [Word(11, 65535)]),
    refused!(4, 11, FULL, [Word(11, 0)]),
    refused!(4, 11, FULL, [Word(11, 1025)]),
    // 5: the length, one byte off on both sides, placed at the length.
    refused!(5, 13, TINY, [Length(13)]),
    refused!(5, 14, TINY, [Length(14)]),
    refused!(5, 16, TINY, [Length(16)]),
    refused!(5, 16384, TINY, [Length(16384)]),
    refused!(5, 11276, FULL, [Length(11276)]),
    refused!(5, 11278, FULL, [Length(11278)]),
    refused!(5, 16384, FULL, [Length(16384)]),
    refused!(5, 15, TINY, [Word(9, 1)]),
    refused!(5, 26, TWO, [Word(9, 0)]),
    refused!(5, 26, TWO, [Word(9, 1024)]),
    refused!(5, 26, TWO, [Word(11, 1)]),
    // 6: the kind, in the first record, one in the middle and the last.
    refused!(6, 13, TWO, [Byte(13, 0)]),
    refused!(6, 13, TWO, [Byte(13, 12)]),
    refused!(6, 13, TWO, [Byte(13, 255)]),
    refused!(6, 13, FULL, [Byte(13, 0)]),
    refused!(6, 13, FULL, [Byte(13, 12)]),
    refused!(6, 4612, FULL, [Byte(4612, 0)]),
    refused!(6, 4612, FULL, [Byte(4612, 12)]),
    refused!(6, 9220, FULL, [Byte(9220, 0)]),
    refused!(6, 9220, FULL, [Byte(9220, 12)]),
    refused!(6, 9220, FULL, [Byte(9220, 255)]),
    // 7: the nets of a gate, first and last record; then inputs that the kind does not use.
    refused!(7, 13, TWO, [Word(14, 2)]),
    refused!(7, 13, TWO, [Word(14, 65535)]),
    refused!(7, 13, TWO, [Byte(13, 3), Word(16, 2)]),
    refused!(7, 13, TWO, [Word(18, 2)]),
    refused!(7, 13, TWO, [Word(18, 65535)]),
    refused!(7, 13, FULL, [Word(14, 1024)]),
    refused!(7, 13, FULL, [Word(18, 1024)]),
    refused!(7, 9220, FULL, [Word(9221, 1024)]),
    refused!(7, 9220, FULL, [Word(9225, 1024)]),
    refused!(7, 31, ELEVEN, [Word(34, 11)]),
    refused!(7, 85, ELEVEN, [Word(88, 11)]),
    refused!(7, 31, ELEVEN, [Word(32, 11)]),
    refused!(7, 85, ELEVEN, [Word(86, 11)]),
    refused!(7, 13, ELEVEN, [Word(16, 1)]),
    refused!(7, 22, ELEVEN, [Word(25, 1)]),
    refused!(7, 94, ELEVEN, [Word(95, 1)]),
    refused!(7, 94, ELEVEN, [Word(97, 1)]),
    refused!(7, 103, ELEVEN, [Word(104, 1)]),
    refused!(7, 103, ELEVEN, [Word(106, 1)]),
    refused!(7, 13, FULL, [Word(16, 1)]),
    refused!(7, 9220, FULL, [Word(9223, 1)]),
    // 8: the delay, first and last record.
    refused!(8, 13, TWO, [Word(20, 0)]),
    refused!(8, 13, TWO, [Word(20, 65)]),
    refused!(8, 13, TWO, [Word(20, 256)]),
    refused!(8, 13, TWO, [Word(20, 65535)]),
    refused!(8, 13, FULL, [Word(20, 0)]),
    refused!(8, 13, FULL, [Word(20, 65)]),
    refused!(8, 9220, FULL, [Word(9227, 0)]),
    refused!(8, 9220, FULL, [Word(9227, 65)]),
    // 9: a watched net that is no net, or not above the one before, placed at its field.
    refused!(9, 13, TINY, [Word(13, 1)]),
    refused!(9, 22, TWO, [Word(22, 2)]),
    refused!(9, 24, TWO, [Word(24, 2)]),
    refused!(9, 24, TWO, [Word(24, 65535)]),
    refused!(9, 24, TWO, [Word(24, 0)]),
    refused!(9, 24, TWO, [Word(22, 1)]),
    refused!(9, 24, TWO, [Word(22, 1), Word(24, 0)]),
    refused!(9, 9229, FULL, [Word(9229, 1024)]),
    refused!(9, 9231, FULL, [Word(9229, 1)]),
    refused!(9, 9231, FULL, [Word(9231, 0)]),
    refused!(9, 11275, FULL, [Word(11275, 1024)]),
    refused!(9, 11275, FULL, [Word(11275, 1022)]),
    refused!(9, 11275, FULL, [Word(11275, 0)]),
    // 10: a net that is neither port nor output, placed at the lowest.
    refused!(10, 0, BARE, []),
    refused!(10, 1, THREE, []),
    refused!(10, 1023, GAP, []),
    refused!(10, 0, EMPTY, []),
    refused!(10, 1, TWO, [Word(18, 0)]),
    refused!(10, 0, FULL, [Word(18, 1)]),
    refused!(10, 1023, FULL, [Word(9225, 0)]),
    refused!(10, 1023, FULL, [Word(18, 1), Word(9225, 0)]),
    refused!(10, 1023, LAST, [Word(18, 0)]),
    // Two faults at once: the lower number counts, in the head the earlier field, among gates the earlier gate.
    refused!(1, 12, TINY, [Byte(0, 0), Length(12)]),
    refused!(2, 0, TINY, [Byte(2, 0), Word(3, 2)]),
    refused!(3, 3, TINY, [Word(3, 2), Word(5, 0)]),
    refused!(4, 5, TINY, [Word(5, 0), Word(9, 1025)]),
    refused!(4, 7, TINY, [Word(7, 2), Word(9, 1025)]),
    refused!(4, 9, TINY, [Word(9, 1025), Word(11, 0)]),
    refused!(4, 11, TINY, [Word(11, 2), Length(20)]),
    refused!(5, 25, TWO, [Byte(13, 0), Length(25)]),
    refused!(6, 13, TWO, [Byte(13, 0), Word(14, 2)]),
    refused!(6, 13, TWO, [Byte(13, 12), Word(20, 0)]),
    refused!(7, 13, TWO, [Word(14, 2), Word(20, 0)]),
    refused!(8, 13, ELEVEN, [Word(20, 0), Byte(22, 0)]),
    refused!(7, 22, ELEVEN, [Word(25, 1), Byte(31, 0)]),
    refused!(8, 13, TWO, [Word(20, 0), Word(22, 2)]),
    refused!(9, 24, TWO, [Word(18, 0), Word(24, 0)]),
];
