use grid_text::Head;

/// The size that all maps of a run have, and where they lie.
#[derive(Drop)]
pub struct Frame {
    /// From north to south.
    pub rows: u32,
    /// From west to east.
    pub cols: u32,
    /// Where they lie.
    pub head: Head,
}
