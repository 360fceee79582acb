ghost use Rattle.std.specs.Prelude.{◌≡◌, ◌<◌, IsSome, IsTrue, Some, is_some};
ghost use Rattle.gpi_values.specs.declared.gpi.Gpi.{Gpi};
ghost use Rattle.gpt_descriptors.specs.Sizes.{space_bytes, with_generation};
ghost use Rattle.gpt_descriptors.specs.Entries.{l1_entry};
ghost use Rattle.shared_words.specs.Next.{words_after, MayBeMade};
ghost use Rattle.walk_cache.specs.Rings.{newest_of};
ghost use Rattle.history.specs.Stamps.{walked};
ghost use Rattle.history.specs.declared.call.Via.TheVariants as via;
ghost use Rattle.processor.specs.Accesses.{walk_of, walk_gpi, table_access};
ghost use Rattle.processor.specs.InnerProgress.{stage_of, no_generations, act_at, next_in, old_in};
ghost use Rattle.processor.specs.InnerProgress.{after_search, after_try, after_load, after_word};
ghost use Rattle.processor.specs.InnerProgress.{decided_stage, after_decision, after_at, ring_after};
ghost use Rattle.processor.specs.InnerProgress.{answer_at, is_last};
ghost use Rattle.processor.specs.InnerProgress as stage;
ghost use Rattle.processor.specs.InnerCpus.{IsReadable, IsAccessAt};

use alias_clean::touch;
use gpi_values::{Gpi, Space, permits};
#[cfg(test)]
use gpt_descriptors::decode_l1;
use gpt_descriptors::{Generations, Geometry, Reach, Size, l1_field, tag_size, word_reach};
use history::{Access, Answer, OldWalk, Via};
use invalidate::{gen_load, off, on};
use shared_words::{Act, Words};
use walk_cache::{Walk, WalkCache};

/// What the next act of an access does.
#[derive(Clone, Copy, Debug, PartialEq, Eq)]
pub enum Phase {
    /// It sets the duty word.
    Starting,
    /// A kept walk covers the address. It loads the generation of the walk's tag size, to see whether
    /// it is the walk's tag still.
    Trying,
    /// It loads the generation of this size.
    Loading(Size),
    /// The generations are loaded. It loads the L1 word.
    Walking,
    /// The L1 word has decided. It loads the generation of the word's reach again.
    Closing,
    /// The access is allowed. It makes the line of its granule in its space resident.
    Touching,
    /// It clears the duty word, and the access is answered.
    Leaving,
}

/// No generation is loaded yet.
const NO_GENERATIONS: Generations = Generations {
    two: 0,
    thirty_two: 0,
    five_twelve: 0,
};

/// How far the access under way has come, with what it keeps.
#[derive(Debug, Drop)]
pub struct Progress {
    phase: Phase,
    /// The generations that it has loaded before the L1 word; those that it hasn't are 0.
    generations: Generations,
    /// The kept walk that it has found, or the walk that it has made; or one of an access before it.
    walk: Walk,
    /// The kept walk that it has found and that it can't use.
    missed: Option<OldWalk>,
    /// What it has found out, or the access before it has.
    access: Access,
}

/// The GPI that a walk gives the granule of an address.
fn gpi_of(geometry: &Geometry, pa: u64, walk: &Walk) -> Gpi
    requires descriptor { IsSome (l1_entry walk.now.word) }
    ensures { walk_gpi geometry.now pa walk.now ≡ Some result }
{
    l1_field(walk.word, geometry.place_in_word(pa))
}

/// The access that this GPI decides.
fn table_access(space: Space, gpi: Gpi, via: Via) -> Access
    ensures { result ≡ table_access space gpi via }
{
    Access {
        allowed: permits(gpi, space),
        gpi,
        level: 1,
        via,
    }
}

/// The access that this kept walk decides.
pub fn hit_by(geometry: &Geometry, pa: u64, space: Space, walk: &Walk) -> Access
    requires descriptor { IsSome (l1_entry walk.now.word) }
    ensures { after_decision (stage.Trying walk.now) (walk_gpi geometry.now pa walk.now) space
        (via.Hit walk.now.reach walk.now.tag) ≡ decided_stage result }
{
    let gpi = gpi_of(geometry, pa, walk);
    let via = Via::Hit {
        reach: walk.reach,
        at: walk.tag,
    };
    table_access(space, gpi, via)
}

impl Progress {
    /// Before the first act of an access.
    pub fn new() -> Progress
        ensures { stage_of result ≡ stage.Starting }
    {
        Progress {
            phase: Phase::Starting,
            generations: NO_GENERATIONS,
            walk: Walk {
                reach: Reach::Word,
                first: 0,
                word: 0,
                tag: 0,
            },
            missed: None,
            access: Access {
                allowed: false,
                gpi: Gpi::NoAccess,
                level: 0,
                via: Via::Still,
            },
        }
    }

    /// Before the first act of the next access.
    pub fn restart(&mut self)
        ensures { stage_of self.new ≡ stage.Starting }
    {
        self.phase = Phase::Starting;
    }

    /// Whether the access has made no act yet.
    pub fn is_starting(&self) -> bool
        ensures { IsTrue result → stage_of self.now ≡ stage.Starting }
    {
        matches!(self.phase, Phase::Starting)
    }

    /// The answer with which the next act, the clearing of the duty word, ends the access.
    pub fn answer(&self) -> Option<Answer>
        ensures { result ≡ answer_at (stage_of self.now) }
    {
        match self.phase {
            Phase::Leaving => Some(Answer::Seen(self.access)),
            _ => None,
        }
    }

    /// The next act of a processor at an access to a byte address in a space.
    pub fn next(&self, geometry: &Geometry, cpu: u32, pa: u64, space: Space) -> Option<Act>
        requires cpu { cpu < geometry.now.cpus }
        requires inside { pa < space_bytes geometry.now.setup }
        ensures { result ≡ act_at geometry.now cpu pa space (stage_of self.now) }
    {
        match self.phase {
            Phase::Starting => Some(on(geometry, cpu)),
            Phase::Trying => Some(gen_load(geometry, tag_size(self.walk.reach), pa)),
            Phase::Loading(size) => Some(gen_load(geometry, size, pa)),
            Phase::Walking => match geometry.l1_place(pa) {
                Some(place) => Some(Act::Load(place)),
                None => None,
            },
            Phase::Closing => Some(gen_load(geometry, tag_size(self.walk.reach), pa)),
            Phase::Touching => touch(geometry, pa, space),
            Phase::Leaving => Some(off(geometry, cpu)),
        }
    }

    /// The tables have to be walked; this kept walk can't be used.
    pub fn begin_walk(&mut self, missed: Option<OldWalk>)
        ensures { stage_of self.new ≡ stage.Loading Size.Two no_generations missed }
    {
        self.missed = missed;
        self.generations = NO_GENERATIONS;
        self.phase = Phase::Loading(Size::Two);
    }

    /// The duty word was set. The ring is searched.
    #[inline(always)]
    fn started(&mut self, cache: &WalkCache, pa: u64)
        ensures { stage_of self.new ≡ after_search (newest_of cache.now.walks pa) }
    {
        match cache.newest(pa) {
            Some(walk) => {
                self.walk = walk;
                self.phase = Phase::Trying;
            }
            None => self.begin_walk(None),
        }
    }

    /// The access is decided.
    fn decide(&mut self, space: Space, gpi: Gpi, via: Via)
        ensures { stage_of self.new ≡ decided_stage (table_access space gpi via) }
    {
        self.access = table_access(space, gpi, via);
        self.phase = if self.access.allowed {
            Phase::Touching
        } else {
            Phase::Leaving
        };
    }

    /// The generation of the found walk was loaded.
    #[inline(always)]
    fn tried(&mut self, geometry: &Geometry, pa: u64, space: Space, at: u64)
        requires descriptor { IsSome (l1_entry self.old.walk.word) }
        ensures { stage_of self.new ≡ after_try geometry.now pa space self.old.walk at }
    {
        let Walk { reach, tag, .. } = self.walk;
        if at == tag {
            let gpi = gpi_of(geometry, pa, &self.walk);
            self.decide(space, gpi, Via::Hit { reach, at: tag });
        } else {
            self.begin_walk(Some(OldWalk { reach, tag, at }));
        }
    }

    /// The generation of this size was loaded.
    fn loaded(&mut self, size: Size, value: u64)
        ensures { stage_of self.new
            ≡ after_load size (with_generation size value self.old.generations) self.old.missed }
    {
        match size {
            Size::Two => {
                self.generations.two = value;
                self.phase = Phase::Loading(Size::ThirtyTwo);
            }
            Size::ThirtyTwo => {
                self.generations.thirty_two = value;
                self.phase = Phase::Loading(Size::FiveTwelve);
            }
            Size::FiveTwelve => {
                self.generations.five_twelve = value;
                self.phase = Phase::Walking;
            }
        }
    }

    /// The L1 word of this address was loaded.
    #[inline(always)]
    fn walked(&mut self, pa: u64, word: u64)
        requires descriptor { IsTrue (is_some (l1_entry word)) }
        ensures { stage_of self.new ≡ after_word self.old.generations self.old.missed
            (walk_of pa self.old.generations word) }
    {
        let reach = word_reach(word);
        self.walk = Walk::around(reach, pa, word, self.generations.get(tag_size(reach)));
        self.phase = Phase::Closing;
    }

    /// How the access found its GPI that has made its walk, and then loaded this generation.
    fn walk_via(&self, hi: u64) -> Via
        ensures { result ≡ walked self.now.missed self.now.walk.reach self.now.walk.tag hi }
    {
        let Walk { reach, tag: lo, .. } = self.walk;
        match self.missed {
            None => Via::Cold { reach, lo, hi },
            Some(
                OldWalk {
                    reach: old_reach,
                    tag,
                    at,
                },
            ) => Via::Missed {
                reach: old_reach,
                tag,
                at,
                then: reach,
                lo,
                hi,
            },
        }
    }

    /// The generation of the word's reach was loaded again. The walk is kept.
    #[inline(always)]
    fn closed(&mut self, geometry: &Geometry, cache: &mut WalkCache, pa: u64, space: Space, hi: u64)
        requires descriptor { IsSome (l1_entry self.old.walk.word) }
        ensures after { stage_of self.new
            ≡ after_at geometry.now cache.old.walks pa space (stage.Closing self.old.walk self.old.missed) hi }
        ensures ring { cache.new
            ≡ ring_after (stage.Closing self.old.walk self.old.missed) cache.old }
    {
        let gpi = gpi_of(geometry, pa, &self.walk);
        let via = self.walk_via(hi);
        cache.note(self.walk);
        self.decide(space, gpi, via);
    }

    /// Takes note that the next act was made and answered `old`, where it isn't the last one.
    pub fn took(
        &mut self,
        geometry: &Geometry,
        cache: &mut WalkCache,
        pa: u64,
        space: Space,
        old: u64,
    )
        requires at { IsAccessAt geometry.now pa (stage_of self.old) }
        requires readable { IsReadable (stage_of self.old) old }
        ensures after { stage_of self.new
            ≡ after_at geometry.now cache.old.walks pa space (stage_of self.old) old }
        ensures ring { cache.new ≡ ring_after (stage_of self.old) cache.old }
    {
        match self.phase {
            Phase::Starting => self.started(cache, pa),
            Phase::Trying => self.tried(geometry, pa, space, old),
            Phase::Loading(size) => self.loaded(size, old),
            Phase::Walking => self.walked(pa, old),
            Phase::Closing => self.closed(geometry, cache, pa, space, old),
            Phase::Touching => self.phase = Phase::Leaving,
            Phase::Leaving => {}
        }
    }

    /// The next act, made on the words. Whether it is the last one.
    #[inline(always)]
    pub fn turn<W: Words>(
        &mut self,
        geometry: &Geometry,
        cache: &mut WalkCache,
        cpu: u32,
        pa: u64,
        space: Space,
        words: &mut W,
    ) -> bool
        requires cpu { cpu < geometry.now.cpus }
        requires inside { pa < space_bytes geometry.now.setup }
        requires next { IsSome (next_in geometry.now cpu pa space self.old) }
        requires place { MayBeMade (next_in geometry.now cpu pa space self.old) (W.words words.old) }
        requires at { IsAccessAt geometry.now pa (stage_of self.old) }
        requires readable { IsReadable (stage_of self.old)
            (old_in geometry.now cpu pa space self.old (W.words words.old)) }
        ensures words { W.words words.new
            ≡ words_after (next_in geometry.now cpu pa space self.old) (W.words words.old) }
        ensures after { stage_of self.new
            ≡ after_at geometry.now cache.old.walks pa space (stage_of self.old)
            (old_in geometry.now cpu pa space self.old (W.words words.old)) }
        ensures ring { cache.new ≡ ring_after (stage_of self.old) cache.old }
        ensures last { result ≡ is_last (stage_of self.old) }
    {
        match self.phase {
            Phase::Starting => {
                words.apply(on(geometry, cpu));
                self.started(cache, pa);
            }
            Phase::Trying => {
                let value = words.apply(gen_load(geometry, tag_size(self.walk.reach), pa));
                self.tried(geometry, pa, space, value);
            }
            Phase::Loading(size) => {
                let value = words.apply(gen_load(geometry, size, pa));
                self.loaded(size, value);
            }
            Phase::Walking => {
                if let Some(place) = geometry.l1_place(pa) {
                    let word = words.apply(Act::Load(place));
                    self.walked(pa, word);
                }
            }
            Phase::Closing => {
                let value = words.apply(gen_load(geometry, tag_size(self.walk.reach), pa));
                self.closed(geometry, cache, pa, space, value);
            }
            Phase::Touching => {
                if let Some(act) = touch(geometry, pa, space) {
                    words.apply(act);
                    self.phase = Phase::Leaving;
                }
            }
            Phase::Leaving => {
                words.apply(off(geometry, cpu));
                return true;
            }
        }
        false
    }
}

#[cfg(test)]
impl Progress {
    /// Whether the next act may answer `old`: one that loads an L1 word answers a descriptor.
    pub fn may_take(&self, old: u64) -> bool
        ensures { IsTrue result → IsReadable (stage_of self.now) old }
    {
        !matches!(self.phase, Phase::Walking) || decode_l1(old).is_some()
    }
}
