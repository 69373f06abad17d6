// The list of vectors, and how to hold a bench to one.
ghost use Rattle.std.specs.Prelude.{◌≡◌, ◌↔◌, IsTrue, IfOk, map, vec_items, vec_len, string_bytes};
ghost use Rattle.vectors.specs.Names.{names};

use crate::laid::Kind;
use crate::values::Values;
use crate::{circuits, tables};
use std::alloc::{AllocError, Global};

#[derive(Drop)]
pub struct Vector {
    pub name: &'static str,
    pub values: Values,
    pub board: Vec<u8>,
    pub script: String,
    pub expected: String,
}

impl Vector {
    // A vector over a board.
    pub(crate) fn of(
        heap: Global,
        name: &'static str,
        values: Values,
        board: Vec<u8>,
        script: &str,
        expected: &str,
    ) -> Result<Vector, AllocError>
        ensures { IfOk result (λ v. v.name.now ≡ name.now) }
    {
        Ok(Vector {
            name,
            values,
            board,
            script: String::from_str(heap, script)?,
            expected: String::from_str(heap, expected)?,
        })
    }

    // Whether these are the answers that the board and the script must have.
    pub fn agrees(&self, answers: &[u8]) -> bool
        ensures { IsTrue result ↔ (answers.now ≡ string_bytes self.now.expected) }
    {
        answers == self.expected.as_bytes()
    }
}

// All vectors.
pub fn all(heap: Global) -> Result<Vec<Vector>, AllocError>
    ensures count { IfOk result (λ all. vec_len all ≡ 16) }
    ensures names { IfOk result (λ all. map (λ v. v.name.now) (vec_items all) ≡ names) }
{
    Ok(vec![in heap;
        circuits::inverter(heap)?,
        circuits::d_latch(heap)?,
        circuits::rs_latch(heap)?,
        circuits::ripple_counter(heap)?,
        circuits::bus_of_nine(heap)?,
        circuits::bus_of_pulls(heap)?,
        tables::gate_table(heap, "buffer", Kind::Buffer, tables::BUFFER)?,
        tables::gate_table(heap, "not", Kind::Not, tables::NOT)?,
        tables::gate_table(heap, "and", Kind::And, tables::AND)?,
        tables::gate_table(heap, "or", Kind::Or, tables::OR)?,
        tables::gate_table(heap, "xor", Kind::Xor, tables::XOR)?,
        tables::gate_table(heap, "nand", Kind::Nand, tables::NAND)?,
        tables::gate_table(heap, "nor", Kind::Nor, tables::NOR)?,
        tables::gate_table(heap, "xnor", Kind::Xnor, tables::XNOR)?,
        tables::gate_table(heap, "tri", Kind::Tri, tables::TRI)?,
        tables::resolution_table(heap)?,
    ]?)
}
