// Rows of bits: what each interface is at or below.
ghost use Rattle.std.specs.Prelude.{◌≡◌, ◌<◌, length};
ghost use Rattle.limits.specs.Limits.{INTERFACES};
ghost use Rattle.slices.specs.Bits.{flag_of};
ghost use Rattle.subtypes.specs.Tables.{STARTS, row_bit};
ghost use Rattle.subtypes.specs.Subtypes.{RowJoined, with_own_bit};

use crate::{BITS, ROW, RUNS};

// Has the row of interface record i the bit k?
pub fn has_bit(rows: &[u16], i: usize, k: usize) -> bool
    requires { (length rows.now ≡ STARTS) × (i < INTERFACES) × (k < INTERFACES) }
    ensures { flag_of result ≡ row_bit rows.now i k }
{
    let word = rows[RUNS + i * ROW + k / BITS];
    (word >> (k % BITS)) % 2 == 1
}

// Gives the row of interface record i its own bit.
pub fn mark(rows: &mut [u16], i: usize)
    requires { (length rows.old ≡ STARTS) × (i < INTERFACES) }
    ensures { rows.new ≡ with_own_bit rows.old i }
{
    let at = RUNS + i * ROW + i / BITS;
    rows[at] = rows[at] | (1u16 << (i % BITS));
}

// Gives the row of interface record i the bits of the rows l and r.
pub fn join(rows: &mut [u16], i: usize, l: usize, r: usize)
    requires { (length rows.old ≡ STARTS) × (i < INTERFACES) × (l < i) × (r < i) }
    ensures { RowJoined rows.old rows.new i l r }
{
    let at = RUNS + i * ROW;
    let left = RUNS + l * ROW;
    let right = RUNS + r * ROW;
    for w in 0..ROW {
        rows[at + w] = rows[left + w] | rows[right + w];
    }
}
