ghost use Rattle.std.specs.Prelude.{◌≡◌, ◌/◌, ◌^◌, ◌<◌};
ghost use Rattle.load_scenario.specs.Load.{stepped};

/// The multiplier of the generator.
const MULTIPLIER: u64 = 6364136223846793005;

/// The increment of the generator.
const INCREMENT: u64 = 1442695040888963407;

/// The generator's value after `value`.
fn stepped(value: u64) -> u64
    ensures { result ≡ stepped value }
{
    value.wrapping_mul(MULTIPLIER).wrapping_add(INCREMENT)
}

/// A linear congruential generator modulo 2 ^ 64.
#[derive(Clone, Copy, Debug)]
pub struct Generator {
    pub value: u64,
}

impl Generator {
    /// Steps the generator once, and answers the upper 31 bits of its new value.
    pub fn draw(&mut self) -> u64
        ensures value { self.new.value ≡ stepped self.old.value }
        ensures drawn { result ≡ stepped self.old.value / 2 ^ 33 }
        ensures range { result < 2 ^ 31 }
    {
        let next = stepped(self.value);
        let drawn = next >> 33;
        self.value = next;
        drawn
    }
}
