use gpt_descriptors::Size;

/// What merging has done.
#[derive(Clone, Copy, Debug, PartialEq, Eq)]
pub enum Fused {
    /// Nothing was stored: no contiguous size is permitted, the word hasn't sixteen equal GPIs, or
    /// a word of its 2 MB differs from it.
    No,
    /// The block of this size around the word is one contiguous entry.
    To(Size),
}
