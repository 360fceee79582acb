ghost use Rattle.std.specs.Prelude.{◌≡◌, IfSome, IfNone};
ghost use Rattle.gpi_values.specs.Names.{name_of, space_name_of, source_name_of, world_name_of};

use crate::gpi::{Gpi, Space};
use crate::security::{Source, World};

/// The name of a GPI in texts: `none`, `secure`, `nonsecure`, `root`, `realm` or `any`.
pub fn gpi_name(gpi: Gpi) -> &'static str
    ensures { result.now ≡ name_of gpi }
{
    match gpi {
        Gpi::NoAccess => "none",
        Gpi::Secure => "secure",
        Gpi::NonSecure => "nonsecure",
        Gpi::Root => "root",
        Gpi::Realm => "realm",
        Gpi::Any => "any",
    }
}

/// The name of a space in texts.
pub fn space_name(space: Space) -> &'static str
    ensures { result.now ≡ space_name_of space }
{
    match space {
        Space::Secure => "secure",
        Space::NonSecure => "nonsecure",
        Space::Root => "root",
        Space::Realm => "realm",
    }
}

/// The name of a source in texts: `realm` or `secure`.
pub fn source_name(source: Source) -> &'static str
    ensures { result.now ≡ source_name_of source }
{
    match source {
        Source::Realm => "realm",
        Source::Secure => "secure",
    }
}

/// The name of the security state that makes a monitor call: `realm`, `secure` or `nonsecure`.
pub fn world_name(world: World) -> &'static str
    ensures { result.now ≡ world_name_of world }
{
    match world {
        World::Realm => "realm",
        World::Secure => "secure",
        World::NonSecure => "nonsecure",
    }
}

/// The GPI with this name, or `None` exactly where none has it.
pub fn gpi_named(name: &[u8]) -> Option<Gpi>
    ensures found { IfSome result (λ gpi. name.now ≡ name_of gpi) }
    ensures none { IfNone result ((gpi : Gpi) → name.now ≡ name_of gpi → ⊥) }
{
    match name {
        b"none" => Some(Gpi::NoAccess),
        b"secure" => Some(Gpi::Secure),
        b"nonsecure" => Some(Gpi::NonSecure),
        b"root" => Some(Gpi::Root),
        b"realm" => Some(Gpi::Realm),
        b"any" => Some(Gpi::Any),
        _ => None,
    }
}

/// The space with this name, or `None` exactly where none has it.
pub fn space_named(name: &[u8]) -> Option<Space>
    ensures found { IfSome result (λ space. name.now ≡ space_name_of space) }
    ensures none { IfNone result ((space : Space) → name.now ≡ space_name_of space → ⊥) }
{
    match name {
        b"secure" => Some(Space::Secure),
        b"nonsecure" => Some(Space::NonSecure),
        b"root" => Some(Space::Root),
        b"realm" => Some(Space::Realm),
        _ => None,
    }
}

/// The source with this name, or `None` exactly where none has it.
pub fn source_named(name: &[u8]) -> Option<Source>
    ensures found { IfSome result (λ source. name.now ≡ source_name_of source) }
    ensures none { IfNone result ((source : Source) → name.now ≡ source_name_of source → ⊥) }
{
    match name {
        b"realm" => Some(Source::Realm),
        b"secure" => Some(Source::Secure),
        _ => None,
    }
}

/// The security state with this name, or `None` exactly where none has it.
pub fn world_named(name: &[u8]) -> Option<World>
    ensures found { IfSome result (λ world. name.now ≡ world_name_of world) }
    ensures none { IfNone result ((world : World) → name.now ≡ world_name_of world → ⊥) }
{
    match name {
        b"realm" => Some(World::Realm),
        b"secure" => Some(World::Secure),
        b"nonsecure" => Some(World::NonSecure),
        _ => None,
    }
}
