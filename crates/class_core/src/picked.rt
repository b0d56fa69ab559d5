/// A metaslab that a pick gave, with its weight, and whether it was the active one that was asked for.
#[derive(Clone, Copy, Debug, PartialEq, Eq)]
pub struct Picked {
    pub index: u16,
    pub weight: u64,
    pub was_active: bool,
}
