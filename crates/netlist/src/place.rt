// The place that holds a netlist that was looked over. Its ghost fields are all that a run relies on.
ghost use Rattle.std.specs.Prelude.{◌≡◌, ℕ, ◌+◌, ◌<◌, ◌≤◌, true, ◌||◌, length, take, nat_lt, slice_index, slice_index_or};
ghost use Rattle.netlist.specs.Kinds.{kind_number};
ghost use Rattle.netlist.specs.Parts.{blank, is_output};

use crate::gate::{Gate, Head};

// Kept as it is: the place is laid down as plain tables of fixed memory, which are written whole.
#[derive(Drop)]
pub struct Netlist {
    pub head: Head,
    pub gates: [Gate; 1024],
    pub watches: [u16; 1024],
    ghost some: { 1 ≤ head.nets },
    ghost nets: { head.nets ≤ 1024 },
    ghost ports: { head.ports ≤ head.nets },
    ghost table: { head.gates ≤ 1024 },
    ghost watched: { 1 ≤ head.watches },
    ghost list: { head.watches ≤ head.nets },
    ghost wide: { length gates ≡ 1024 },
    ghost long: { length watches ≡ 1024 },
    ghost reads: { (g : ℕ) → g < head.gates → ((slice_index_or gates g blank).a < head.nets) × ((slice_index_or gates g blank).b < head.nets) },
    ghost outs: { (g : ℕ) → g < head.gates → (slice_index_or gates g blank).out < head.nets },
    ghost unary: { (g : ℕ) → g < head.gates → kind_number (slice_index_or gates g blank).kind < 3 → (slice_index_or gates g blank).b ≡ 0 },
    ghost pulls: { (g : ℕ) → g < head.gates → 9 < kind_number (slice_index_or gates g blank).kind → (slice_index_or gates g blank).a ≡ 0 },
    ghost quiet: { (g : ℕ) → g < head.gates → 9 < kind_number (slice_index_or gates g blank).kind → (slice_index_or gates g blank).b ≡ 0 },
    ghost delays: { (g : ℕ) → g < head.gates → (1 ≤ (slice_index_or gates g blank).delay) × ((slice_index_or gates g blank).delay ≤ 64) },
    ghost driven: { (n : ℕ) → n < head.nets → (nat_lt n head.ports || is_output (take head.gates gates) n) ≡ true },
    ghost below: { (i : ℕ) → i < head.watches → slice_index watches i < head.nets },
    ghost rising: { (i : ℕ) → i + 1 < head.watches → slice_index watches i < slice_index watches (i + 1) },
}
