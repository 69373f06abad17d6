// The boards of the cases, as files.

// One net, a port, watched, and no gate.
pub const STILL: &[u8] = &[0x4e, 0x4c, 0x42, 0, 1, 0, 1, 0, 1, 0, 0, 0, 1, 0, 0];

// Net 0 is a port, net 1 its NOT with delay 2; both are watched.
pub const INVERTER: &[u8] = &[
    0x4e, 0x4c, 0x42, 0, 1, 0, 2, 0, 1, 0, 1, 0, 2, 2, 0, 0, 0, 0, 0, 1, 0, 2, 0, 0, 0, 1,
];

// Net 0 is a port. Net 1 is its AND with itself, delay 3. Net 2 is the NOR of nets 0 and 1, delay 1.
// Net 3 is a bus: a TRI, delay 2, drives it with net 0 where net 2 is high, beside a pull-up, delay 64.
// Nets 0, 2 and 3 are watched.
pub const BUS: &[u8] = &[
    0x4e, 0x4c, 0x42, 0, 1, 0, 4, 0, 1, 0, 4, 0, 3, 1, 0, 0, 0, 0, 0, 1, 0, 3, 7, 0, 0, 0, 1, 0, 2,
    0, 1, 9, 0, 0, 0, 2, 0, 3, 0, 2, 10, 0, 0, 0, 0, 0, 3, 0, 64, 0, 0, 0, 2, 0, 3,
];
