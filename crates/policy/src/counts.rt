// What a file counts, within the limits of 3.
ghost use Rattle.std.specs.Prelude.{◌≤◌};
ghost use Rattle.search.specs.Search.{Among};

// How many labels, roles, users and cards there are.
#[derive(Clone, Copy)]
pub struct Counts {
    pub labels: usize,
    pub roles: usize,
    pub users: usize,
    pub cards: usize,
    ghost few_labels: { Among 32 labels },
    ghost few_roles: { roles ≤ 128 },
    ghost few_users: { users ≤ 256 },
    ghost few_cards: { cards ≤ 512 },
}
