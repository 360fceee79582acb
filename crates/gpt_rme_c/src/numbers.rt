ghost use Rattle.std.specs.Prelude.{◌≡◌};
ghost use Rattle.gpt_descriptors.specs.Entries.{size_code, size_with};
ghost use Rattle.gpt_rme_c.specs.Descriptors.{space_with};

use gpi_values::Space;
use gpt_descriptors::Size;

/// The space of these bits of an access's physical address space, NSE above NS (DDI 0487, RME).
pub fn space_of(number: u32) -> Option<Space>
    ensures { result ≡ space_with number }
{
    match number {
        0 => Some(Space::Secure),
        1 => Some(Space::NonSecure),
        2 => Some(Space::Root),
        3 => Some(Space::Realm),
        _ => None,
    }
}

/// The field Contig of a size (DDI 0487, GPT level 1 descriptors).
pub fn contig_of(size: Size) -> u32
    ensures { result ≡ size_code size }
{
    match size {
        Size::Two => 1,
        Size::ThirtyTwo => 2,
        Size::FiveTwelve => 3,
    }
}

/// The size of a field Contig.
pub fn size_of(contig: u32) -> Option<Size>
    ensures { result ≡ size_with contig }
{
    match contig {
        1 => Some(Size::Two),
        2 => Some(Size::ThirtyTwo),
        3 => Some(Size::FiveTwelve),
        _ => None,
    }
}
