// The tables of a state that have a stretch of bytes of one width for each thing.
ghost use Rattle.std.specs.Prelude.{◌+◌, ◌*◌, ◌≤◌};
ghost use Rattle.policy.specs.Tables.{state_size};

use super::layout;
use roleset::ROW_BYTES;

// Where a table starts, and how many things it has.
#[derive(Clone, Copy)]
pub struct StateTable<const WIDTH: usize> {
    pub at: usize,
    pub size: usize,
    ghost inside: { at + WIDTH * size ≤ state_size },
    ghost small: { size ≤ 512 },
}

// Tables of one byte for each thing, and those of a role set for each.
pub type ByteTable = StateTable<1>;

pub type RowTable = StateTable<ROW_BYTES>;

pub const CLEARANCES: ByteTable = ByteTable {
    at: layout::CLEARANCES_AT,
    size: layout::USERS,
};

pub const CARD_LABELS: ByteTable = ByteTable {
    at: layout::CARD_LABELS_AT,
    size: layout::CARDS,
};

pub const R_LEVELS: ByteTable = ByteTable {
    at: layout::R_LEVELS_AT,
    size: layout::ROLES,
};

pub const W_LEVELS: ByteTable = ByteTable {
    at: layout::W_LEVELS_AT,
    size: layout::ROLES,
};

pub const SENIORS: RowTable = RowTable {
    at: layout::SENIORS_AT,
    size: layout::ROLES,
};

pub const ASSIGNED: RowTable = RowTable {
    at: layout::ASSIGNED_AT,
    size: layout::USERS,
};
