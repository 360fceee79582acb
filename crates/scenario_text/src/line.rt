use crate::scenario::{Ask, Look, Slot};
use crate::word::Setting;
use region_plan::Region;

/// What a line says.
#[derive(Clone, Copy, Debug, PartialEq, Eq)]
pub enum Line {
    OneSetting(Setting, u64),
    OneRegion(Region),
    NewAgent,
    NewCpu,
    OneAsk(Ask),
    OneLook(Look),
    OneSlot(Slot),
    End,
}
