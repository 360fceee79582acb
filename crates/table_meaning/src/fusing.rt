use gpt_descriptors::Size;

/// Where merging is.
#[derive(Clone, Copy, Debug, PartialEq, Eq)]
pub enum Fusing {
    /// Before this load of the test of a size, counted from 0.
    Testing(Size, usize),
    /// Before this store of a block of a size, counted from 0.
    Storing(Size, usize),
    /// Ended, with the size of the block that was merged, if one was.
    Ended(Option<Size>),
}
