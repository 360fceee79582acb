use crate::view::View;
use atomic_table::{Join, Play, Split, TableRule};
use core_machine::Caller;
use gpt_descriptors::Geometry;
use shared_words::PlainWords;
use std::snapshot::Snapshot;

/// What the table of a field is made with. It has no copy of the words or of the callers:
/// contracts alone see them.
#[derive(Drop)]
pub struct FieldKey {
    pub(crate) geometry: Geometry,
    pub(crate) words: Snapshot<PlainWords>,
    pub(crate) callers: Snapshot<Vec<Caller>>,
}

/// The rule of the shared words: they and the callers of all passes have the facts of the core with one
/// history, of which each pass has seen a prefix.
pub struct Running;

impl TableRule<u64, View, FieldKey> for Running {
    ghost use Rattle.race_run.specs.InnerRule.{IsRunning, opening_of, whole};

    ghost holds = { λ key s. IsRunning (opening_of key) s.words s.views };

    ghost first = { λ key. whole (opening_of key) };
}

/// The first of the callers that a pass holds goes to a pass of its own.
pub(crate) struct FirstCaller;

impl Split<View> for FirstCaller {
    ghost use Rattle.race_run.specs.InnerRule.{without_first, with_first};

    ghost left = { without_first };

    ghost right = { with_first };
}

/// The next act of the one caller of a pass.
pub(crate) struct NextAct;

impl Play<u64, View> for NextAct {
    ghost use Rattle.race_run.specs.InnerRule.{Acted};

    ghost then = { λ _ me n after. Acted me n after };
}

/// A pass that comes to the field to take in the others.
pub(crate) struct Entering;

impl Play<u64, View> for Entering {
    ghost use Rattle.race_run.specs.InnerRule.{Entered};

    ghost then = { λ _ me n after. Entered me after };
}

/// Two passes made one.
pub(crate) struct BothPasses;

impl Join<View> for BothPasses {
    ghost use Rattle.race_run.specs.InnerRule.{joined, spent};

    ghost both = { joined };

    ghost spent = { spent };
}

/// What a pass has seen goes to a pass without callers.
pub(crate) struct WhatIsSeen;

impl Split<View> for WhatIsSeen {
    ghost use Rattle.std.specs.Prelude.{[]};
    ghost use Rattle.race_run.specs.InnerRule.{with_held};

    ghost left = { λ v. v };

    ghost right = { λ v. with_held v [] };
}
