// The bytes of a state: what there is room for, and where the counts and tables stand, in the words
// of docs/LAYOUT.md and by the names of specs/Tables.antt. `monitor` has those of the places.

// How many labels there is room for.
pub const LABELS: usize = order::marks::THINGS;

// Roles.
pub const ROLES: usize = roleset::ROLES;

// Users.
pub const USERS: usize = 256;

// Cards.
pub const CARDS: usize = 512;

// The bytes of a whole state.
pub const STATE_SIZE: usize = 65536;

// A whole state.
pub type State = [u8; STATE_SIZE];

// The count of labels: two bytes, the lower first, as of every count.
pub const LABEL_COUNT_AT: u16 = 0;

// The count of roles.
pub const ROLE_COUNT_AT: u16 = 2;

// The count of users.
pub const USER_COUNT_AT: u16 = 4;

// The count of cards.
pub const CARD_COUNT_AT: u16 = 6;

// Dominance: for each label a row of `LABELS` bytes, one for each label that it may dominate.
pub const DOMINANCE_AT: usize = 16;

// The byte where it does, else 0.
pub const MARK: u8 = 1;

// Clearance of each user.
pub const CLEARANCES_AT: usize = 1040;

// Label of each card.
pub const CARD_LABELS_AT: usize = 1296;

// r-level of each role: a label, `FREE` or `UNDEFINED`.
pub const R_LEVELS_AT: usize = 1808;

// The byte of a free level.
pub const FREE: u8 = 0;

// The byte of an undefined level.
pub const UNDEFINED: u8 = 99;

// w-level of each role.
pub const W_LEVELS_AT: usize = 1936;

// Seniors of each role, itself included.
pub const SENIORS_AT: usize = 2064;

// Assigned roles of each user.
pub const ASSIGNED_AT: usize = 4112;

// Roles that may read each card, by inheritance too.
pub const READERS_AT: usize = 12304;

// Roles that may write each card.
pub const WRITERS_AT: usize = 20496;
