use tb_types::Bounds;

/// The box of a header, if it has a valid one, with the number of the header's block.
#[derive(Clone, Copy, Debug, PartialEq, Eq)]
pub struct HeaderAt {
    pub no: u32,
    pub bounds: Option<Bounds>,
}
