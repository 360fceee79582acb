ghost use Rattle.std.specs.Prelude.{◌≡◌, ◌<◌};
ghost use Rattle.invalidate.specs.Duty.{on_act, off_act};

use gpt_descriptors::Geometry;
use shared_words::Act;

/// The act that begins an access of a processor of the geometry: 1 in its duty word, which a
/// barrier waits for as a DSB waits for the accesses of other PEs (DDI 0487, completion of TLB
/// maintenance instructions).
pub fn on(geometry: &Geometry, cpu: u32) -> Act
    requires { cpu < geometry.now.cpus }
    ensures { result ≡ on_act geometry.now cpu }
{
    Act::Store(geometry.duty_place(cpu), 1)
}

/// The act that ends an access of a processor of the geometry: 0 in its duty word, which a barrier
/// passes.
pub fn off(geometry: &Geometry, cpu: u32) -> Act
    requires { cpu < geometry.now.cpus }
    ensures { result ≡ off_act geometry.now cpu }
{
    Act::Store(geometry.duty_place(cpu), 0)
}
