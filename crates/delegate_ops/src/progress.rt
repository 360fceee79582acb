ghost use Rattle.std.specs.Prelude.{◌≡◌, ◌+◌, ◌^◌, ◌<◌, ◌≤◌, ◌==◌, not, if◌then◌else◌, IsSome};
ghost use Rattle.std.specs.Prelude.{IsTrue, ◌↔◌, is_some, None, Some, false, length};
ghost use Rattle.std.specs.Int.Bits.{bit_and};
ghost use Rattle.gpt_descriptors.specs.Entries.{l1_entry, word_gpi};
ghost use Rattle.gpt_descriptors.specs.Places.{GeometryData, l1_index_of};
ghost use Rattle.shatter.specs.Splitting.{next_store, advanced};
ghost use Rattle.shared_words.specs.Next.{words_after, MayBeMade};
ghost use Rattle.fuse.specs.Merging.{took_of, next_of, fuse_of};
ghost use Rattle.delegate_ops.specs.Deciding.{address_of, idle_answer, refusal_of, worn_answer};
ghost use Rattle.delegate_ops.specs.InnerStages.{stage_of, waits_in, kept_read};
ghost use Rattle.delegate_ops.specs.InnerStages as stage;
ghost use Rattle.delegate_ops.specs.declared.stage.Phase.TheVariants as the_phase;
ghost use Rattle.delegate_ops.specs.InnerAgents.{IsReadable, number_of, looked_stage, loaded_stage};
ghost use Rattle.delegate_ops.specs.InnerAgents.{read_all, read_stage, split_stage, merged_stage};
ghost use Rattle.delegate_ops.specs.InnerAgents.{first_stage, last_stage, passed_stage};
ghost use Rattle.delegate_ops.specs.InnerAgents.{passing_stage, cleaned_stage};
ghost use Rattle.delegate_ops.specs.InnerAgents.{raised_stage, stage_after};
ghost use Rattle.invalidate.specs.Barrier.{one_passed};
ghost use Rattle.delegate_ops.specs.InnerRuns.{IsStoring, MakesRun};
ghost use Rattle.delegate_ops.specs.declared.places.Places.{Places as ThePlaces};
ghost use Rattle.delegate_ops.specs.InnerTransition.{IsTransition, act_by, answer_by, after_by};
ghost use Rattle.delegate_ops.specs.InnerTransition.{next_in, old_in, at_progress, turned_by};
ghost use Rattle.delegate_ops.specs.InnerTransition.{GoesTo, clean_by, word_after, generation_place};
ghost use Rattle.delegate_ops.specs.Changing.{target_space, space_of_line};
ghost use Rattle.delegate_ops.specs.declared.stage.Change.TheVariants as the_change;
ghost use Rattle.gpt_descriptors.specs.Sizes.{generation_in};
ghost use Rattle.gpt_descriptors.specs.declared.size.Size.TheVariants as size;
ghost use Rattle.shared_words.specs.declared.act.Act.TheVariants as act;

use crate::blocks::{merging_of, splitting_of};
use crate::changing::{changed_word, first_change, space_of_line, target_space};
use crate::deciding::{is_needed, worn_size};
use crate::places::Places;
use crate::stage::{Change, Ending, Kept, Line, Phase};
use bit_locks::{Bit, drop_act, take, was_free};
use fuse::{Fuse, has_acts};
use gpt_descriptors::{Geometry, Gpi, L1Entry, Size, decode_l1, granules_of, l1_field};
use history::{Answer, Task};
use invalidate::Barrier;
use shared_words::{Act, StoreRun, Words};
use shatter::Splitting;

/// What a turn of a transition was.
#[derive(Clone, Copy, Debug, PartialEq, Eq)]
pub enum Turned {
    /// It had waited for its lock or for a processor, and waits again.
    Still,
    /// It goes on, or begins to wait.
    Goes,
    /// It released its lock.
    Ends,
}

/// Whether a lock that was tried wasn't free, by what that act answered.
fn is_held(lock: Bit, old: u64) -> bool
    ensures { result ≡ not (bit_and old lock.mask == 0) }
{
    !was_free(lock, old)
}

/// How far a transition has come, with what it keeps. It takes no memory.
#[derive(Debug, Drop)]
pub struct Progress {
    phase: Phase,
    kept: Kept,
    /// The splitting that it makes, or has made last.
    splitting: Splitting,
    /// The barrier that it is in, or has been in last.
    barrier: Barrier,
    /// The merging that it makes, or has made last.
    merging: Fuse,
}

impl Progress {
    /// Before the first act of a task with acts.
    pub fn new(geometry: &Geometry, task: Task) -> Progress
        requires { idle_answer geometry.now task ≡ None }
        ensures { GoesTo result stage.Locking }
    {
        Progress {
            phase: Phase::Locking,
            kept: Kept::new(0),
            splitting: splitting_of(geometry, task, Size::Two, Gpi::NoAccess),
            barrier: Barrier::new(geometry.cpus()),
            merging: merging_of(geometry, task, 0),
        }
    }

    /// Before the first act of the next task.
    pub fn restart(&mut self)
        ensures { GoesTo self.new stage.Locking }
    {
        self.phase = Phase::Locking;
    }

    /// Whether the last act was a lock that wasn't free, or a load of a duty word that wasn't 0.
    pub fn waits(&self) -> bool
        ensures { result ≡ waits_in self.now.phase }
    {
        matches!(self.phase, Phase::Waiting | Phase::Blocked(_))
    }

    /// The answer with which the next act, the release of the lock, ends the transition.
    pub fn answer(&self) -> Option<Answer>
        ensures { result ≡ answer_by (stage_of self.now) }
    {
        match self.phase {
            Phase::Releasing(ending) => Some(ending.answer(self.kept.generations)),
            _ => None,
        }
    }

    /// The next act.
    pub fn next(&self, geometry: &Geometry, places: &Places, task: Task) -> Option<Act>
        requires { IsTransition geometry.now (at_progress task places.now self.now) }
        ensures { result ≡ act_by geometry.now places.now (stage_of self.now) task }
    {
        match self.phase {
            Phase::Locking | Phase::Waiting => Some(take(places.lock)),
            Phase::Looking => Some(Act::Load(places.word)),
            Phase::Reading(size) => Some(Act::Load(places.generation(size))),
            Phase::Splitting(_) => self.splitting.next(),
            Phase::Preparing => Some(places.clean(target_space(task))),
            Phase::Changing(change) => {
                let word = changed_word(task, change, places.field, self.kept.word);
                Some(Act::Store(places.word, word))
            }
            Phase::Raising(_, size) => {
                let raised = self.kept.generations.get(size) + 1;
                Some(Act::Store(places.generation(size), raised))
            }
            Phase::Passing(_) | Phase::Blocked(_) => self.barrier.next(geometry),
            Phase::Cleaning(change, line) => Some(places.clean(space_of_line(task, change, line))),
            Phase::Merging => self.merging.next(),
            Phase::Releasing(_) => Some(drop_act(places.lock)),
        }
    }

    /// The lock was tried, and was free or wasn't.
    fn locked(&mut self, is_held: bool)
        ensures stage { stage_of self.new ≡ (if is_held then stage.Locking else stage.Looking) }
        ensures waits { waits_in self.new.phase ≡ is_held }
    {
        self.phase = if is_held {
            Phase::Waiting
        } else {
            Phase::Looking
        };
    }

    /// The L1 word was loaded, which has the granule at this field.
    #[inline(always)]
    fn looked(&mut self, task: Task, field: u64, word: u64)
        requires descriptor { IsTrue (is_some (l1_entry word)) }
        requires field { field < 16 }
        ensures { GoesTo self.new (looked_stage (refusal_of task (word_gpi word field)) word) }
    {
        let found = l1_field(word, field);
        if is_needed(task, found) {
            self.kept = Kept::new(word);
            self.phase = Phase::Reading(Size::Two);
        } else {
            self.phase = Phase::Releasing(Ending::Refused(found));
        }
    }

    /// The first change is next, and with a delegate a clean before it.
    fn begin_change(&mut self, task: Task)
        ensures { GoesTo self.new (first_stage task self.old.kept) }
    {
        self.phase = match task {
            Task::Delegate(..) => Phase::Preparing,
            _ => Phase::Changing(first_change(task)),
        };
    }

    /// All generations were loaded, and none is exhausted.
    fn loaded(&mut self, geometry: &Geometry, task: Task)
        requires descriptor { IsTrue (is_some (l1_entry self.old.kept.word)) }
        requires acts { idle_answer geometry.now task ≡ None }
        ensures { GoesTo self.new
            (loaded_stage geometry.now task (l1_entry self.old.kept.word) self.old.kept) }
    {
        match decode_l1(self.kept.word) {
            Some(L1Entry::Contig(size, gpi)) => {
                self.splitting = splitting_of(geometry, task, size, gpi);
                self.phase = Phase::Splitting(size);
            }
            _ => self.begin_change(task),
        }
    }

    /// All generations were loaded.
    fn all_read(&mut self, geometry: &Geometry, task: Task)
        requires descriptor { IsTrue (is_some (l1_entry self.old.kept.word)) }
        requires acts { idle_answer geometry.now task ≡ None }
        ensures { GoesTo self.new
            (read_all geometry.now (worn_answer self.old.kept.generations) task self.old.kept) }
    {
        match worn_size(self.kept.generations) {
            Some(size) => self.phase = Phase::Releasing(Ending::Worn(size)),
            None => self.loaded(geometry, task),
        }
    }

    /// The generation of this size was loaded.
    #[inline(always)]
    fn read(&mut self, geometry: &Geometry, task: Task, size: Size, value: u64)
        requires descriptor { IsTrue (is_some (l1_entry self.old.kept.word)) }
        requires acts { idle_answer geometry.now task ≡ None }
        ensures { GoesTo self.new
            (read_stage geometry.now task size (kept_read size value self.old.kept)) }
    {
        self.kept.note(size, value);
        match size {
            Size::Two => self.phase = Phase::Reading(Size::ThirtyTwo),
            Size::ThirtyTwo => self.phase = Phase::Reading(Size::FiveTwelve),
            Size::FiveTwelve => self.all_read(geometry, task),
        }
    }

    /// Some stores of the splitting of a block of this size were made.
    fn settle_split(&mut self, task: Task, size: Size)
        requires { self.old.phase ≡ the_phase.Splitting size }
        ensures { GoesTo self.new
            (split_stage task size self.old.splitting self.old.kept.generations) }
    {
        if self.splitting.is_over() {
            self.kept.word = granules_of(self.splitting.gpi());
            self.begin_change(task);
        }
    }

    /// A store of the splitting of a block of this size was made.
    fn split(&mut self, task: Task, size: Size)
        requires phase { self.old.phase ≡ the_phase.Splitting size }
        requires store { IsSome (next_store self.old.splitting) }
        ensures { GoesTo self.new
            (split_stage task size (advanced self.old.splitting) self.old.kept.generations) }
    {
        self.splitting.advance();
        self.settle_split(task, size);
    }

    /// The L1 word was written with this change.
    fn changed(&mut self, change: Change, word: u64)
        ensures { GoesTo self.new
            (stage.Raising change Size.Two (record {
              word = word;
              generations = self.old.kept.generations;
            })) }
    {
        self.kept.word = word;
        self.phase = Phase::Raising(change, Size::Two);
    }

    /// Merging goes on, or the lock is to be released.
    fn settle(&mut self)
        ensures { GoesTo self.new (merged_stage self.old.merging self.old.kept.generations) }
    {
        self.phase = if self.merging.next().is_some() {
            Phase::Merging
        } else {
            Phase::Releasing(Ending::Done)
        };
    }

    /// The last change and what follows it are made: merging begins, where it has acts.
    #[tactic(auto, using(fuse::proofs::StartLemmas::without_acts))]
    fn merge(&mut self, geometry: &Geometry, task: Task)
        requires { idle_answer geometry.now task ≡ None }
        ensures { GoesTo self.new (last_stage geometry.now task self.old.kept) }
    {
        if has_acts(geometry.setup().max(), self.kept.word) {
            self.merging = merging_of(geometry, task, self.kept.word);
            self.settle();
        } else {
            self.phase = Phase::Releasing(Ending::Done);
        }
    }

    /// Every processor is passed after a change.
    fn passed(&mut self, geometry: &Geometry, task: Task, change: Change)
        requires { idle_answer geometry.now task ≡ None }
        ensures { GoesTo self.new (passed_stage geometry.now task change self.old.kept) }
    {
        match (task, change) {
            (Task::Undelegate(..), Change::Last) => self.merge(geometry, task),
            _ => self.phase = Phase::Cleaning(change, Line::Former),
        }
    }

    /// The barrier after a change goes on, or what follows it.
    fn pass(&mut self, geometry: &Geometry, task: Task, change: Change)
        requires { idle_answer geometry.now task ≡ None }
        ensures { GoesTo self.new
            (passing_stage geometry.now task change self.old.barrier self.old.kept) }
    {
        if self.barrier.is_over() {
            self.passed(geometry, task, change);
        } else {
            self.phase = Phase::Passing(change);
        }
    }

    /// The next processor's duty word was loaded in the barrier after a change.
    fn found(&mut self, geometry: &Geometry, task: Task, change: Change, duty: u64)
        requires acts { idle_answer geometry.now task ≡ None }
        requires next { self.old.barrier.passed < self.old.barrier.cpus }
        ensures stage { stage_of self.new ≡ (if not (duty == 0)
            then stage.Passing change self.old.barrier self.old.kept
            else passing_stage geometry.now task change (one_passed self.old.barrier)
            self.old.kept) }
        ensures waits { waits_in self.new.phase ≡ not (duty == 0) }
    {
        if self.barrier.took(duty) {
            self.pass(geometry, task, change);
        } else {
            self.phase = Phase::Blocked(change);
        }
    }

    /// This line was cleaned after a change.
    fn cleaned(&mut self, geometry: &Geometry, task: Task, change: Change, line: Line)
        requires { idle_answer geometry.now task ≡ None }
        ensures { GoesTo self.new (cleaned_stage geometry.now task change line self.old.kept) }
    {
        match (change, line) {
            (Change::First, Line::Former) => self.phase = Phase::Cleaning(change, Line::NonSecure),
            (Change::First, Line::NonSecure) => self.phase = Phase::Changing(Change::Last),
            (Change::Last, _) => self.merge(geometry, task),
        }
    }

    /// The generation of this size was raised to this value after a change.
    fn raised(&mut self, geometry: &Geometry, task: Task, change: Change, size: Size, raised: u64)
        requires { idle_answer geometry.now task ≡ None }
        ensures { GoesTo self.new
            (raised_stage geometry.now task change size (kept_read size raised self.old.kept)) }
    {
        self.kept.note(size, raised);
        match size {
            Size::Two => self.phase = Phase::Raising(change, Size::ThirtyTwo),
            Size::ThirtyTwo => self.phase = Phase::Raising(change, Size::FiveTwelve),
            Size::FiveTwelve => {
                self.barrier = Barrier::new(geometry.cpus());
                self.pass(geometry, task, change);
            }
        }
    }

    /// An act of merging was made, and answered `old`.
    #[inline(always)]
    fn merged(&mut self, old: u64)
        requires { IsSome (next_of self.old.merging) }
        ensures { GoesTo self.new
            (merged_stage (took_of self.old.merging old) self.old.kept.generations) }
    {
        self.merging.took(old);
        self.settle();
    }

    /// Takes note that the next act was made and answered `old`, where it isn't the release of the
    /// lock.
    pub fn took(&mut self, geometry: &Geometry, places: &Places, task: Task, old: u64)
        requires transition { IsTransition geometry.now (at_progress task places.now self.old) }
        requires readable { IsReadable (stage_of self.old) old }
        requires goes { answer_by (stage_of self.old) ≡ None }
        ensures { at_progress task places.now self.new
            ≡ after_by geometry.now (at_progress task places.now self.old) old }
    {
        match self.phase {
            Phase::Locking | Phase::Waiting => self.locked(is_held(places.lock, old)),
            Phase::Looking => self.looked(task, places.field, old),
            Phase::Reading(size) => self.read(geometry, task, size, old),
            Phase::Splitting(size) => self.split(task, size),
            Phase::Preparing => self.phase = Phase::Changing(Change::Last),
            Phase::Changing(change) => {
                let word = changed_word(task, change, places.field, self.kept.word);
                self.changed(change, word);
            }
            Phase::Raising(change, size) => {
                let value = self.kept.generations.get(size) + 1;
                self.raised(geometry, task, change, size, value);
            }
            Phase::Passing(change) | Phase::Blocked(change) => {
                self.found(geometry, task, change, old);
            }
            Phase::Cleaning(change, line) => self.cleaned(geometry, task, change, line),
            Phase::Merging => self.merged(old),
            Phase::Releasing(_) => {}
        }
    }

    /// Whether the next act is a store of a splitting or of merging.
    pub fn stores(&self) -> bool
        ensures { IsTrue result → IsStoring (stage_of self.now) }
    {
        match self.phase {
            Phase::Splitting(_) => true,
            Phase::Merging => self.merging.stores(),
            _ => false,
        }
    }

    /// Whether the next act is neither a wait after a wait nor a store of a splitting or of merging.
    pub fn goes_on(&self) -> bool
        ensures { IsTrue result → waits_in self.now.phase ≡ false }
    {
        match self.phase {
            Phase::Waiting | Phase::Blocked(_) | Phase::Splitting(_) => false,
            Phase::Merging => !self.merging.stores(),
            _ => true,
        }
    }

    /// The next stores of a splitting or of merging, at most this number, as one run. It goes
    /// on as after them. It isn't empty where the next act is such a store.
    pub fn take_run(&mut self, task: Task, most: usize) -> StoreRun
        ensures run { (p : ThePlaces)
            → MakesRun (at_progress task p self.old) result (at_progress task p self.new) }
        ensures most { result.count ≤ most }
        ensures some { (g : GeometryData) (p : ThePlaces)
            → IsTransition g (at_progress task p self.old) → 0 < most
            → IsStoring (stage_of self.old) → 0 < result.count }
        ensures room { result.first + result.count < 2 ^ 64 }
    {
        match self.phase {
            Phase::Splitting(size) => {
                let run = self.splitting.take_run(most);
                if run.count > 0 {
                    self.settle_split(task, size);
                }
                run
            }
            Phase::Merging => {
                let run = self.merging.take_run(most);
                if run.count > 0 {
                    self.settle();
                }
                run
            }
            _ => StoreRun::empty(),
        }
    }

    /// The line of its target's space is cleaned before the change of a delegate.
    #[inline(always)]
    fn prepare<W: Words>(&mut self, places: &Places, task: Task, words: &mut W)
        requires field { places.now.field < 16 }
        requires place { MayBeMade (Some (clean_by places.now (target_space task)))
            (W.words words.old) }
        ensures words { W.words words.new
            ≡ words_after (Some (clean_by places.now (target_space task))) (W.words words.old) }
        ensures after { GoesTo self.new (stage.Changing the_change.Last self.old.kept) }
    {
        words.apply(places.clean(target_space(task)));
        self.phase = Phase::Changing(Change::Last);
    }

    /// The L1 word is written with this change.
    #[inline(always)]
    fn change<W: Words>(&mut self, places: &Places, task: Task, change: Change, words: &mut W)
        requires field { places.now.field < 16 }
        requires place { places.now.word < length (W.words words.old) }
        ensures words { W.words words.new ≡ words_after (Some (act.Store places.now.word
            (word_after places.now task change self.old.kept.word))) (W.words words.old) }
        ensures after { GoesTo self.new (stage.Raising change size.Two (record {
          word = word_after places.now task change self.old.kept.word;
          generations = self.old.kept.generations;
        })) }
    {
        let word = changed_word(task, change, places.field, self.kept.word);
        words.apply(Act::Store(places.word, word));
        self.changed(change, word);
    }

    /// The generation of this size is raised after a change.
    #[inline(always)]
    fn raise<W: Words>(
        &mut self,
        geometry: &Geometry,
        places: &Places,
        task: Task,
        change: Change,
        size: Size,
        words: &mut W,
    )
        requires acts { idle_answer geometry.now task ≡ None }
        requires room { generation_in size self.old.kept.generations + 1 < 2 ^ 64 }
        requires place { generation_place places.now size < length (W.words words.old) }
        ensures words { W.words words.new
            ≡ words_after (Some (act.Store (generation_place places.now size)
            (generation_in size self.old.kept.generations + 1))) (W.words words.old) }
        ensures after { GoesTo self.new (raised_stage geometry.now task change size
            (kept_read size (generation_in size self.old.kept.generations + 1) self.old.kept)) }
    {
        let value = self.kept.generations.get(size) + 1;
        words.apply(Act::Store(places.generation(size), value));
        self.raised(geometry, task, change, size, value);
    }

    /// This line is cleaned after a change.
    #[inline(always)]
    fn clean<W: Words>(
        &mut self,
        geometry: &Geometry,
        places: &Places,
        task: Task,
        change: Change,
        line: Line,
        words: &mut W,
    )
        requires acts { idle_answer geometry.now task ≡ None }
        requires field { places.now.field < 16 }
        requires place { MayBeMade (Some (clean_by places.now (space_of_line task change line)))
            (W.words words.old) }
        ensures words { W.words words.new
            ≡ words_after (Some (clean_by places.now (space_of_line task change line)))
            (W.words words.old) }
        ensures after { GoesTo self.new
            (cleaned_stage geometry.now task change line self.old.kept) }
    {
        words.apply(places.clean(space_of_line(task, change, line)));
        self.cleaned(geometry, task, change, line);
    }

    /// The next act, made on the words, with what comes of it. A wait has a short way.
    #[inline(always)]
    pub fn turn<W: Words>(
        &mut self,
        geometry: &Geometry,
        places: &Places,
        task: Task,
        words: &mut W,
    ) -> Turned
        requires transition { IsTransition geometry.now (at_progress task places.now self.old) }
        requires place { MayBeMade (next_in geometry.now task places.now self.old)
            (W.words words.old) }
        requires readable { IsReadable (stage_of self.old)
            (old_in geometry.now task places.now self.old (W.words words.old)) }
        ensures words { W.words words.new
            ≡ words_after (next_in geometry.now task places.now self.old) (W.words words.old) }
        ensures after { at_progress task places.now self.new
            ≡ after_by geometry.now (at_progress task places.now self.old)
            (old_in geometry.now task places.now self.old (W.words words.old)) }
        ensures turned { result ≡ turned_by (at_progress task places.now self.old)
            (old_in geometry.now task places.now self.old (W.words words.old)) }
    {
        if let Phase::Waiting = self.phase {
            if is_held(places.lock, words.apply(take(places.lock))) {
                return Turned::Still;
            }
            self.phase = Phase::Looking;
            return Turned::Goes;
        }
        match self.phase {
            Phase::Locking | Phase::Waiting => {
                let held = is_held(places.lock, words.apply(take(places.lock)));
                self.locked(held);
            }
            Phase::Looking => {
                let word = words.apply(Act::Load(places.word));
                self.looked(task, places.field, word);
            }
            Phase::Reading(size) => {
                let value = words.apply(Act::Load(places.generation(size)));
                self.read(geometry, task, size, value);
            }
            Phase::Splitting(size) => {
                if let Some(store) = self.splitting.next() {
                    words.apply(store);
                    self.split(task, size);
                }
            }
            Phase::Preparing => self.prepare(places, task, words),
            Phase::Changing(change) => self.change(places, task, change, words),
            Phase::Raising(change, size) => {
                self.raise(geometry, places, task, change, size, words);
            }
            Phase::Cleaning(change, line) => {
                self.clean(geometry, places, task, change, line, words);
            }
            Phase::Passing(change) | Phase::Blocked(change) => {
                let waited = self.waits();
                if let Some(load) = self.barrier.next(geometry) {
                    let duty = words.apply(load);
                    self.found(geometry, task, change, duty);
                    if waited && duty != 0 {
                        return Turned::Still;
                    }
                }
            }
            Phase::Merging => {
                if let Some(act) = self.merging.next() {
                    let old = words.apply(act);
                    self.merged(old);
                }
            }
            Phase::Releasing(_) => {
                words.apply(drop_act(places.lock));
                return Turned::Ends;
            }
        }
        Turned::Goes
    }
}

impl Progress {
    /// Whether the next act may answer `old`: one that looks at an L1 word answers a descriptor.
    pub fn may_take(&self, old: u64) -> bool
        ensures { IsTrue result ↔ IsReadable (stage_of self.now) old }
    {
        !matches!(self.phase, Phase::Looking) || decode_l1(old).is_some()
    }
}
