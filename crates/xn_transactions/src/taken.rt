use xn_changes::Item;

/// An item, and how many regions it has behind its first.
#[derive(Debug, Drop)]
pub(crate) struct Taken {
    pub(crate) item: Item,
    pub(crate) behind: usize,
}
