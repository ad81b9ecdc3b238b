/// How many more there may be of what a configuration counts.
#[derive(Clone, Copy)]
pub struct Room {
    pub neighbours: usize,
    pub groups: usize,
    pub ribs: usize,
    /// Flat rules: a rule counts once for each choice of members of its lists.
    pub rules: usize,
    pub networks: usize,
    /// The entries of all sets together.
    pub entries: usize,
    pub listens: usize,
}

/// What the lists of a rule leave to the next one.
#[derive(Clone, Copy)]
pub struct Lists {
    /// How many members it may have.
    pub room: usize,
    /// Whether a list of prefixes stands already.
    pub prefixes: bool,
    /// Whether a list of AS numbers stands already.
    pub numbers: bool,
}
