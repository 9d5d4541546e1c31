// What each kind of token does at each point of the machine that judges a text, in one table of numbers.
#![tactic(auto)]

mod entries;

ghost use Rattle.std.specs.Prelude.{◌≡◌, true, ◌<◌, replicate};
ghost use Rattle.flat.specs.Flat.{POINTS};
ghost use Rattle.tokens.specs.Next.{KINDS};
ghost use Rattle.table.specs.Table.{TurnIs, Plain, unpacked, table_entries, closed_to};

pub use entries::Table;
use flat::Turn;

// The table has a row with room for so many kinds for each of 64 points.
const ROW: usize = 32;

pub const ENTRIES: usize = 64 * ROW;

// The rows of the points where an expression may have ended.
const VARIABLE: usize = 33 * ROW;

const MEMBER: usize = 35 * ROW;

const ENDED: usize = 58 * ROW;

// What a token does at a point, as one number, since most tokens are judged by the whole of it (`is_plain`). It has the next point (below 64), and above it the
// deed (16), the role (32), the tokens back (4), what that token becomes (32) and what the last one becomes (32).
#[derive(Clone, Copy)]
pub struct Entry {
    pub bits: u32,
}

// The bits of the entry of a token that is left to the innermost closer.
const LEFT: u32 = flat::CLOSE as u32 * 64;

// The deed of a token that does nothing besides, and the first entry that settles an earlier token's role.
const GO: u32 = 1;

const SETTLING: u32 = 32768;

// The rules of `specs/Flat.antt`, in the order of the table: the place of each there, and its entry.
const RULES: [(u16, u32); 117] = [
    (2, 1089),
    (4, 2127),
    (7, 21611),
    (9, 22637),
    (10, 24686),
    (12, 25717),
    (13, 16506),
    (16, 17505),
    (19, 23653),
    (27, 29817),
    (28, 17569),
    (29, 26746),
    (60, 6210),
    (67, 75),
    (81, 67),
    (114, 64),
    (124, 4164),
    (147, 69),
    (188, 70),
    (213, 71),
    (238, 8264),
    (239, 9288),
    (252, 7240),
    (276, 73),
    (309, 74),
    (334, 8259),
    (335, 9283),
    (348, 7235),
    (380, 7244),
    (406, 77),
    (444, 7232),
    (452, 2127),
    (455, 21611),
    (457, 22637),
    (458, 24686),
    (460, 25717),
    (461, 16506),
    (464, 17505),
    (467, 23653),
    (475, 29817),
    (476, 17569),
    (477, 26746),
    (508, 6224),
    (517, 81),
    (572, 7250),
    (593, 83),
    (614, 3159),
    (626, 78),
    (636, 5204),
    (661, 85),
    (686, 8275),
    (687, 9299),
    (700, 7251),
    (710, 3159),
    (722, 78),
    (764, 10328),
    (787, 89),
    (828, 218),
    (853, 91),
    (878, 8284),
    (879, 9308),
    (892, 7260),
    (916, 93),
    (949, 94),
    (974, 8287),
    (975, 9311),
    (988, 7263),
    (1009, 992),
    (1031, 21611),
    (1033, 22637),
    (1034, 24686),
    (1036, 25717),
    (1037, 16506),
    (1040, 17505),
    (1043, 23653),
    (1051, 29817),
    (1052, 17569),
    (1053, 26746),
    (1079, 98),
    (1082, 3571812),
    (1116, 2437219),
    (1139, 57246496),
    (1144, 2588768),
    (1168, 14458),
    (1180, 14522),
    (1198, 8295),
    (1199, 9319),
    (1200, 14440),
    (1212, 14502),
    (1236, 29360224),
    (1242, 3735657),
    (1268, 96),
    (1306, 3735657),
    (1328, 14442),
    (1340, 14506),
    (1364, 122),
    (1404, 12012),
    (1432, 96),
    (1468, 7290),
    (1489, 111),
    (1515, 112),
    (1553, 864),
    (1579, 114),
    (1617, 928),
    (1650, 116),
    (1689, 96),
    (1715, 118),
    (1744, 14455),
    (1756, 14519),
    (1780, 120),
    (1800, 96),
    (1853, 122),
    (1896, 288),
    (1940, 314),
    (1970, 305),
    (2002, 307),
    (2034, 342),
];

// At the three points where an expression may have ended a token is left to the innermost closer, but for those that have a rule.
fn put_closing(table: &mut [u32; ENTRIES])
    ensures { table.new ≡ closed_to ROW table.old }
{
    for k in 0..ROW {
        table[VARIABLE + k] = LEFT;
        table[MEMBER + k] = LEFT;
        table[ENDED + k] = LEFT;
    }
}

// Puts the rules.
fn put_rules(table: &mut [u32; ENTRIES])
    requires { table.old ≡ closed_to ROW (replicate ENTRIES 0) }
    ensures { table.new ≡ table_entries }
{
    for (place, entry) in RULES {
        table[place as usize] = entry;
    }
}

// Fills a table of zeros. The caller keeps it: a constant would be built anew wherever it is read, and an answer copied.
pub fn fill_table(table: &mut [u32; ENTRIES])
    requires { table.old ≡ replicate ENTRIES 0 }
    ensures { table.new ≡ table_entries }
{
    put_closing(table);
    put_rules(table);
}

impl Entry {
    // The point that comes next.
    pub fn next_point(self) -> u8
        ensures { result ≡ (unpacked self.bits).next }
    {
        (self.bits % 64) as u8
    }

    // The token's role.
    pub fn role(self) -> u8
        ensures { result ≡ (unpacked self.bits).role }
    {
        (self.bits / 1024 % 32) as u8
    }

    // Does the token nothing besides? Then nothing stands above its role.
    pub fn is_plain(self) -> bool
        ensures { result ≡ true → Plain self.bits }
    {
        (self.bits / 64 % 16 == GO) & (self.bits < SETTLING)
    }

    // All that it says.
    fn turn(self) -> Turn
        ensures { result ≡ unpacked self.bits }
    {
        Turn {
            next: self.next_point(),
            role: self.role(),
            deed: (self.bits / 64 % 16) as u8,
            back: (self.bits / 32768 % 4) as u8,
            becomes: (self.bits / 131072 % 32) as u8,
            before: (self.bits / 4194304 % 32) as u8,
        }
    }
}

impl Table<'_> {
    // What a token of a kind does at a point, as an entry.
    pub fn entry_at(&self, point: u8, kind: u8) -> Entry
        requires { (point < POINTS) × (kind < KINDS) }
        ensures { TurnIs point kind (unpacked result.bits) }
    {
        let row = point as usize * ROW;
        Entry {
            bits: self.entries[row + kind as usize],
        }
    }

    // What a token of a kind does at a point.
    pub fn turn_at(&self, point: u8, kind: u8) -> Turn
        requires { (point < POINTS) × (kind < KINDS) }
        ensures { TurnIs point kind result }
    {
        self.entry_at(point, kind).turn()
    }
}
