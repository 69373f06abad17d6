// Small circuits with waveforms worked out by hand.
ghost use Rattle.std.specs.Prelude.{◌≡◌, IfOk, codes};

use crate::laid;
use crate::laid::{Gate, Kind};
use crate::values::Values;
use crate::vector::Vector;
use std::alloc::{AllocError, Global};

// A gate one tick late.
fn gate(kind: Kind, a: u16, b: u16, out: u16) -> Gate {
    Gate {
        kind,
        a,
        b,
        out,
        delay: 1,
    }
}

// A port and its NOT, two ticks late; the file is written out byte by byte.
// The NOT is U at ticks 0 and 1, and at tick 2 the NOT of the 1 that the port had at tick 0.
pub fn inverter(heap: Global) -> Result<Vector, AllocError>
    ensures { IfOk result (λ v. v.name.now ≡ codes "inverter") }
{
    let board = Vec::from_slice(
        heap,
        b"\x4e\x4c\x42\x00\x01\x00\x02\x00\x01\x00\x01\x00\x02\
          \x02\x00\x00\x00\x00\x00\x01\x00\x02\
          \x00\x00\x00\x01",
    )?;
    Vector::of(
        heap,
        "inverter",
        Values::Nine,
        board,
        "drive 0 1\nadvance 4\nread 1\nread 9\n",
        "ok\n0 0 1\n2 1 0\ndone 4\n0 definite\nno 4 22 r 4\n",
    )
}

// A gated D latch of an inverter and four NANDs, each one tick late:
//     0 D, 1 enable, 2 = NOT 0, 3 = NAND(0, 1), 4 = NAND(2, 1), 5 Q = NAND(3, 6), 6 = NAND(4, 5).
// Open with D = 1 from tick 0: 3 falls at 1, so Q rises at 2 although its other input is U, and
// the other output falls at 3. Closed at 6: 3 and 4 are both 1 from 7 on, and the pair keeps
// itself. D falls at 9 and nothing moves. Open again at 13: 4 falls at 14 (2 has been 1 since 10),
// so 6 rises at 15 and Q falls at 16.
pub fn d_latch(heap: Global) -> Result<Vector, AllocError>
    ensures { IfOk result (λ v. v.name.now ≡ codes "d_latch") }
{
    let gates = [
        gate(Kind::Not, 0, 0, 2),
        gate(Kind::Nand, 0, 1, 3),
        gate(Kind::Nand, 2, 1, 4),
        gate(Kind::Nand, 3, 6, 5),
        gate(Kind::Nand, 4, 5, 6),
    ];
    let board = laid::file(heap, 7, 2, &gates, &[0, 1, 5, 6])?;
    Vector::of(
        heap,
        "d_latch",
        Values::Nine,
        board,
        "drive 0 1\ndrive 1 1\nadvance 6\n\
          drive 1 0\nadvance 3\n\
          drive 0 0\nadvance 4\nread 5\n\
          drive 1 1\nadvance 6\nread 5\nread 6\n",
        "ok\nok\n0 0 1\n0 1 1\n2 5 1\n3 6 0\ndone 6\n\
          ok\n6 1 0\ndone 3\n\
          ok\n9 0 0\ndone 4\n1 definite\n\
          ok\n13 1 1\n15 6 1\n16 5 0\ndone 6\n0 definite\n1 definite\n",
    )
}

// An RS latch of two crossed NANDs, each one tick late: 2 = NAND(0, 3), 3 = NAND(1, 2).
// Both inputs low: both outputs rise at 1, whatever the other is. Both released at 3: each sees
// 1 and 1, so both fall at 4, both rise at 5, both fall at 6, for neither is slower. Input 0 low
// at 7: both still rise at 7; from 8 on output 2 is held at 1 and output 3 sees 1 and 1 and falls.
// Released again at 11 the latch keeps what it has.
pub fn rs_latch(heap: Global) -> Result<Vector, AllocError>
    ensures { IfOk result (λ v. v.name.now ≡ codes "rs_latch") }
{
    let gates = [gate(Kind::Nand, 0, 3, 2), gate(Kind::Nand, 1, 2, 3)];
    let board = laid::file(heap, 4, 2, &gates, &[0, 1, 2, 3])?;
    Vector::of(
        heap,
        "rs_latch",
        Values::Nine,
        board,
        "drive 0 0\ndrive 1 0\nadvance 3\n\
          drive 0 1\ndrive 1 1\nadvance 4\n\
          drive 0 0\nadvance 4\nread 2\nread 3\n\
          drive 0 1\nadvance 3\nread 2\nread 3\n",
        "ok\nok\n0 0 0\n0 1 0\n1 2 1\n1 3 1\ndone 3\n\
          ok\nok\n3 0 1\n3 1 1\n4 2 0\n4 3 0\n5 2 1\n5 3 1\n6 2 0\n6 3 0\ndone 4\n\
          ok\n7 0 0\n7 2 1\n7 3 1\n8 3 0\ndone 4\n1 definite\n0 definite\n\
          ok\n11 0 1\ndone 3\n1 definite\n0 definite\n",
    )
}

// A ripple counter of two edge-triggered toggles, each of six NANDs and an AND, all one tick late:
//     s = NAND(k, b), b = NAND(s, clock), e = AND(b, clock), c = NAND(e, k), k = NAND(c, not-q),
//     q = NAND(b, not-q), not-q = NAND(c, q).
// While the clock is 0, b and c are 1, so q keeps itself, k = q and s = not-q.
// Rise at t with q = 0: b falls at t + 1, q rises at t + 2, not-q falls at t + 3.
// Rise at t with q = 1: e rises at t + 1, c falls at t + 2, not-q rises at t + 3, q falls at t + 4.
// A fall of the clock leaves q alone. The second toggle has the first one's not-q as its clock,
// so it moves when the first one's q falls.
// Nets: 0 clock, 1 to 7 s b e c k q not-q of the first, 8 to 14 of the second.
// Start levels: the first at rest with clock 0 and q = 0, so s b e c k q not-q are 1 1 0 1 0 0 1;
// the second at rest with clock 1 and q = 0, so they are 0 1 1 0 1 0 1.
// Rises at 10, 30, 50, 70: q of the first rises at 12, falls at 34, rises at 52, falls at 74.
// Its not-q rises at 33 and 73: q of the second rises at 35 and falls at 77. Counted: 1, 2, 3, 0.
pub fn ripple_counter(heap: Global) -> Result<Vector, AllocError>
    ensures { IfOk result (λ v. v.name.now ≡ codes "ripple_counter") }
{
    let gates = [
        gate(Kind::Nand, 5, 2, 1),
        gate(Kind::Nand, 1, 0, 2),
        gate(Kind::And, 2, 0, 3),
        gate(Kind::Nand, 3, 5, 4),
        gate(Kind::Nand, 4, 7, 5),
        gate(Kind::Nand, 2, 7, 6),
        gate(Kind::Nand, 4, 6, 7),
        gate(Kind::Nand, 12, 9, 8),
        gate(Kind::Nand, 8, 7, 9),
        gate(Kind::And, 9, 7, 10),
        gate(Kind::Nand, 10, 12, 11),
        gate(Kind::Nand, 11, 14, 12),
        gate(Kind::Nand, 9, 14, 13),
        gate(Kind::Nand, 11, 13, 14),
    ];
    let board = laid::file(heap, 15, 1, &gates, &[0, 6, 13])?;
    Vector::of(
        heap,
        "ripple_counter",
        Values::Nine,
        board,
        "wake 0 1\nwake 1 1\nwake 2 0\nwake 3 1\nwake 4 0\nwake 5 0\nwake 6 1\n\
          wake 7 0\nwake 8 1\nwake 9 1\nwake 10 0\nwake 11 1\nwake 12 0\nwake 13 1\n\
          drive 0 0\nadvance 10\n\
          drive 0 1\nadvance 10\ndrive 0 0\nadvance 10\n\
          drive 0 1\nadvance 10\ndrive 0 0\nadvance 10\n\
          drive 0 1\nadvance 10\ndrive 0 0\nadvance 10\n\
          drive 0 1\nadvance 10\ndrive 0 0\nadvance 10\n",
        "ok\nok\nok\nok\nok\nok\nok\nok\nok\nok\nok\nok\nok\nok\n\
          ok\n0 0 0\n0 6 0\n0 13 0\ndone 10\n\
          ok\n10 0 1\n12 6 1\ndone 10\nok\n20 0 0\ndone 10\n\
          ok\n30 0 1\n34 6 0\n35 13 1\ndone 10\nok\n40 0 0\ndone 10\n\
          ok\n50 0 1\n52 6 1\ndone 10\nok\n60 0 0\ndone 10\n\
          ok\n70 0 1\n74 6 0\n77 13 0\ndone 10\nok\n80 0 0\ndone 10\n",
    )
}

// A bus (net 4) with two tri-state drivers, of port 0 enabled by 1 and of port 2 enabled by 3, and
// a pull-up.
fn bus(heap: Global) -> Result<Vec<u8>, AllocError> {
    let gates = [
        gate(Kind::Tri, 0, 1, 4),
        gate(Kind::Tri, 2, 3, 4),
        gate(Kind::PullUp, 0, 0, 4),
    ];
    laid::file(heap, 5, 4, &gates, &[4])
}

// Data 0 and 1. At tick 0 all three drivers are U.
// Nobody enabled: Z with Z with H is H, at 1. The first enabled from 2: 0 beats Z and H, at 3.
// Both enabled from 4: 0 against 1 is X, at 5. The second alone from 6: 1, at 7.
// The first's enable unknown from 8: TRI gives X, which beats 1, at 9.
// Its enable L, which reads 0, from 10: Z again, so 1, at 11.
// The second's data H, enabled by H, from 12: H reads 1, so its output stays 1 and nothing moves.
// The second let go by L, from 14: H, at 15. Enable U, from 16: U, at 17.
pub fn bus_of_nine(heap: Global) -> Result<Vector, AllocError>
    ensures { IfOk result (λ v. v.name.now ≡ codes "bus_of_nine") }
{
    let board = bus(heap)?;
    Vector::of(
        heap,
        "bus_of_nine",
        Values::Nine,
        board,
        "drive 0 0\ndrive 1 0\ndrive 2 1\ndrive 3 0\nadvance 2\nread 4\n\
          drive 1 1\nadvance 2\nread 4\n\
          drive 3 1\nadvance 2\nread 4\n\
          drive 1 0\nadvance 2\nread 4\n\
          drive 1 X\nadvance 2\n\
          drive 1 L\nadvance 2\n\
          drive 2 H\ndrive 3 H\nadvance 2\n\
          drive 3 L\nadvance 2\n\
          drive 1 U\nadvance 2\nread 4\n",
        "ok\nok\nok\nok\n1 4 H\ndone 2\nH definite\n\
          ok\n3 4 0\ndone 2\n0 definite\n\
          ok\n5 4 X\ndone 2\nX open\n\
          ok\n7 4 1\ndone 2\n1 definite\n\
          ok\n9 4 X\ndone 2\n\
          ok\n11 4 1\ndone 2\n\
          ok\nok\ndone 2\n\
          ok\n15 4 H\ndone 2\n\
          ok\n17 4 U\ndone 2\nU open\n",
    )
}

// The same bus in pull ranges: a driver at full strength is 6, the resistor 3.
// Nobody enabled: nothing but the resistor, 3300, at 1. The first enabled with a weak 0 (0033)
// from 2: it reads 0 and is driven as 0066, with the resistor 3366, at 3. Both enabled from 4: 6666.
// The second alone from 6: 6600, at 7. The first's enable 0000, which reads neither, from 8: it
// may pull down by up to 6, so 6606, at 9. The second let go too, from 10: 3306, at 11.
// The first's data unknown as well, from 12: up to 6 either way, 3606, at 13.
pub fn bus_of_pulls(heap: Global) -> Result<Vector, AllocError>
    ensures { IfOk result (λ v. v.name.now ≡ codes "bus_of_pulls") }
{
    let board = bus(heap)?;
    Vector::of(
        heap,
        "bus_of_pulls",
        Values::Pulls,
        board,
        "drive 0 0033\ndrive 1 0066\ndrive 2 6600\ndrive 3 0066\nadvance 2\nread 4\n\
          drive 1 6600\nadvance 2\nread 4\n\
          drive 3 7700\nadvance 2\nread 4\n\
          drive 1 0011\nadvance 2\nread 4\n\
          drive 1 0000\nadvance 2\nread 4\n\
          drive 3 0066\nadvance 2\n\
          drive 0 0707\nadvance 2\nread 4\n",
        "ok\nok\nok\nok\n1 4 3300\ndone 2\n3300 definite\n\
          ok\n3 4 3366\ndone 2\n3366 definite\n\
          ok\n5 4 6666\ndone 2\n6666 definite\n\
          ok\n7 4 6600\ndone 2\n6600 definite\n\
          ok\n9 4 6606\ndone 2\n6606 open\n\
          ok\n11 4 3306\ndone 2\n\
          ok\n13 4 3606\ndone 2\n3606 open\n",
    )
}
