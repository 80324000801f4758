/// What an archive holds.
#[derive(Clone, Copy, Debug, PartialEq, Eq)]
pub struct Totals {
    /// The tiles that can be asked for, at most 2^64.
    pub tiles: u128,
    /// The entries of its directories that name tiles.
    pub entries: u64,
    /// The contents, which differ in their place or their length.
    pub contents: u64,
    /// The features of all tiles, those of a content once for each tile.
    pub features: u128,
}
