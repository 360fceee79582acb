ghost use Rattle.std.specs.Prelude.{◌≡◌};
ghost use Rattle.gpt_descriptors.specs.Sizes.{size_bytes, is_permitted, tag_size_of, is_worn, generation_in, with_generation};

/// The last value that a generation may reach.
pub const GEN_LAST: u64 = 9223372036854775807;

/// The size of a contiguous block, in MB (DDI 0487, GPT level 1 descriptors, field Contig; TF-A
/// `GPT_L1_CONT_2MB`, `GPT_L1_CONT_32MB` and `GPT_L1_CONT_512MB`).
#[derive(Clone, Copy, Debug, PartialEq, Eq)]
pub enum Size {
    Two,
    ThirtyTwo,
    FiveTwelve,
}

/// The largest contiguous size that is used, in MB: TF-A `RME_GPT_MAX_BLOCK`. `Zero` uses none.
#[derive(Clone, Copy, Debug, PartialEq, Eq)]
pub enum MaxBlock {
    Zero,
    Two,
    ThirtyTwo,
    FiveTwelve,
}

/// How far one L1 entry reaches: the granules of its word, or a contiguous block, in MB.
#[derive(Clone, Copy, Debug, PartialEq, Eq)]
pub enum Reach {
    Word,
    Two,
    ThirtyTwo,
    FiveTwelve,
}

/// The generations of the 2, 32 and 512 MB regions around an address.
#[derive(Clone, Copy, Debug, PartialEq, Eq)]
pub struct Generations {
    pub two: u64,
    pub thirty_two: u64,
    pub five_twelve: u64,
}

impl Size {
    /// The bytes of a block of this size.
    pub fn bytes(self) -> u64
        ensures { result ≡ size_bytes self }
    {
        match self {
            Size::Two => 1 << 21,
            Size::ThirtyTwo => 1 << 25,
            Size::FiveTwelve => 1 << 29,
        }
    }
}

impl Generations {
    /// The generation of a size.
    pub fn get(self, size: Size) -> u64
        ensures { result ≡ generation_in size self }
    {
        match size {
            Size::Two => self.two,
            Size::ThirtyTwo => self.thirty_two,
            Size::FiveTwelve => self.five_twelve,
        }
    }

    /// The generations with that of a size replaced.
    pub fn with(self, size: Size, value: u64) -> Generations
        ensures { result ≡ with_generation size value self }
    {
        let mut replaced = self;
        match size {
            Size::Two => replaced.two = value,
            Size::ThirtyTwo => replaced.thirty_two = value,
            Size::FiveTwelve => replaced.five_twelve = value,
        }
        replaced
    }
}

/// Whether a generation is exhausted: too near to `GEN_LAST` for a transition, which raises it up
/// to twice.
pub fn is_worn(value: u64) -> bool
    ensures { result ≡ is_worn value }
{
    value > GEN_LAST - 2
}

impl MaxBlock {
    /// Whether contiguous blocks of this size are used.
    pub fn permits(self, size: Size) -> bool
        ensures { result ≡ is_permitted self size }
    {
        match (self, size) {
            (MaxBlock::FiveTwelve, _)
            | (MaxBlock::ThirtyTwo, Size::ThirtyTwo | Size::Two)
            | (MaxBlock::Two, Size::Two) => true,
            _ => false,
        }
    }
}

/// The size of the region whose generation tags a walk of this reach: 2 MB for a word of granules,
/// else the size of the block.
pub fn tag_size(reach: Reach) -> Size
    ensures { result ≡ tag_size_of reach }
{
    match reach {
        Reach::Word | Reach::Two => Size::Two,
        Reach::ThirtyTwo => Size::ThirtyTwo,
        Reach::FiveTwelve => Size::FiveTwelve,
    }
}
