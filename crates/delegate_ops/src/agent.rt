ghost use Rattle.std.specs.Prelude.{◌≡◌, ℕ, ◌<◌, ◌^◌, ◌+◌, ◌-◌, ◌≤◌, ◌++◌, IfOk, IfSome, IsSome};
ghost use Rattle.std.specs.Prelude.{IsTrue, is_some, not, Some, None, length, drop, false};
ghost use Rattle.std.specs.Prelude.{slice_get, vec_capacity, Option};
ghost use Rattle.gpt_descriptors.specs.Places.{GeometryData};
ghost use Rattle.std.specs.List.{All};
ghost use Rattle.std.specs.Option.{option_map};
ghost use Rattle.delegate_ops.specs.Deciding.{idle_answer};
ghost use Rattle.delegate_ops.specs.InnerAgents.{is_look, task_of, fresh, idle_answers, has_ended};
ghost use Rattle.delegate_ops.specs.InnerAgents.{next_of, after_answer, took_of, IsStill, HasActs};
ghost use Rattle.delegate_ops.specs.InnerAgents.{IsReadable};
ghost use Rattle.delegate_ops.specs.InnerTransition.{begun, IsUnderWay};
ghost use Rattle.delegate_ops.specs.InnerRuns.{stored_by, AreNext, IsStoring};
ghost use Rattle.delegate_ops.specs.InnerTurns.{turned, MayTurn};
ghost use Rattle.shared_words.specs.Next.{old_by, words_after, MayBeMade};

use crate::deciding::idle_answer;
use crate::progress::Turned;
use crate::transition::Transition;
use gpt_descriptors::Geometry;
use history::{Answer, Task};
use shared_words::{Act, StoreRun, Words};
use std::alloc::{AllocError, Global};
use std::marker::Model;

/// An agent: a list of transitions that it makes one after another, act by act.
#[derive(Debug, Drop)]
pub struct Agent {
    geometry: Geometry,
    tasks: Vec<Task>,
    answers: Vec<Answer>,
    transition: Option<Transition>,
}

impl Model for Agent {
    ghost use Rattle.std.specs.Prelude.{◌≤◌, length, slice_get, vec_capacity};
    ghost use Rattle.delegate_ops.specs.InnerAgents.{AgentData, IsAgent};
    ghost use Rattle.delegate_ops.specs.InnerTransition.{stage_in, waited_in, IsUnderWay};

    ghost Value = { AgentData };

    ghost view = { λ a. record {
      geometry = a.geometry;
      tasks = a.tasks.items;
      answers = a.answers.items;
      stage = stage_in a.transition;
      waited = waited_in a.transition;
    } };

    ghost invariant = { λ a. IsAgent (record {
      geometry = a.geometry;
      tasks = a.tasks.items;
      answers = a.answers.items;
      stage = stage_in a.transition;
      waited = waited_in a.transition;
    }) × (length a.tasks.items ≤ vec_capacity a.answers)
        × IsUnderWay a.geometry (slice_get a.tasks.items (length a.answers.items)) a.transition };
}

/// Answers the tasks without acts, from the first one without an answer up to one with acts.
fn answer_idle(geometry: &Geometry, tasks: &[Task], answers: &mut Vec<Answer>)
    requires room { length tasks.now ≤ vec_capacity answers.old }
    requires within { length answers.old.items ≤ length tasks.now }
    ensures items { answers.new.items ≡ answers.old.items
        ++ idle_answers geometry.now (drop (length answers.old.items) tasks.now) }
    ensures acts { HasActs geometry.now (slice_get tasks.now (length answers.new.items)) }
    ensures within { length answers.new.items ≤ length tasks.now }
    ensures capacity { vec_capacity answers.new ≡ vec_capacity answers.old }
{
    for task in &tasks[answers.len()..] {
        match idle_answer(geometry, *task) {
            Some(answer) => answers.push_reserved(answer),
            None => return,
        }
    }
}

/// The transition of a task before its first act, where there was none. It is a function of its own
/// so that those which go on in the place of one pay for no room for a new one.
#[inline(never)]
fn begin_first(geometry: &Geometry, task: Task, transition: &mut Option<Transition>)
    requires acts { idle_answer geometry.now task ≡ None }
    requires no_look { is_look task ≡ false }
    ensures value { transition.new ≡ Some (begun geometry.now task) }
    ensures is { IsUnderWay geometry.now (Some task) transition.new }
{
    *transition = Some(Transition::new(geometry, task));
}

/// The transition of a task before its first act, in the place of the one before.
fn begin_task(geometry: &Geometry, task: Task, transition: &mut Option<Transition>)
    requires acts { idle_answer geometry.now task ≡ None }
    requires no_look { is_look task ≡ false }
    ensures value { transition.new ≡ Some (begun geometry.now task) }
    ensures is { IsUnderWay geometry.now (Some task) transition.new }
{
    match transition {
        Some(transition) => transition.restart(geometry, task),
        None => begin_first(geometry, task, transition),
    }
}

/// The transition of the first task without an answer, if there is one, before its first act, in
/// the place of the one before.
#[tactic(auto, using(std::proofs::lemmas::Option::slice_get_past))]
fn begin(
    geometry: &Geometry,
    tasks: &[Task],
    answers: &[Answer],
    transition: &mut Option<Transition>,
)
    requires acts { HasActs geometry.now (slice_get tasks.now (length answers.now)) }
    requires no_looks { All (λ t. is_look t ≡ false) tasks.now }
    ensures value { transition.new
        ≡ option_map (begun geometry.now) (slice_get tasks.now (length answers.now)) }
    ensures under_way { IsUnderWay geometry.now (slice_get tasks.now (length answers.now))
        transition.new }
{
    match tasks.get(answers.len()) {
        Some(task) => begin_task(geometry, *task, transition),
        None => *transition = None,
    }
}

/// The transition of the first task without an answer before its first act, at the places of the
/// one before. Whether that is so: it is where there is such a task, and it moves the granule at the
/// same address. Else the transition is as it was.
#[inline(always)]
fn begin_again(tasks: &[Task], answers: &[Answer], transition: &mut Option<Transition>) -> bool
    ensures acts { (g : GeometryData) → (o : Option Task) → IsUnderWay g o transition.old
        → IsTrue result → HasActs g (slice_get tasks.now (length answers.now)) }
    ensures value { (g : GeometryData) → (o : Option Task) → IsUnderWay g o transition.old
        → IsTrue result → transition.new
        ≡ option_map (begun g) (slice_get tasks.now (length answers.now)) }
    ensures under_way { (g : GeometryData) → (o : Option Task) → IsUnderWay g o transition.old
        → IsTrue result
        → IsUnderWay g (slice_get tasks.now (length answers.now)) transition.new }
    ensures not { result ≡ false → transition.new ≡ transition.old }
{
    let Some(transition) = transition else {
        return false;
    };
    let Some(task) = tasks.get(answers.len()) else {
        return false;
    };
    transition.again(*task)
}

impl Agent {
    /// An agent before its first act. Its leading tasks without acts are answered.
    pub fn new(alloc: Global, geometry: Geometry, tasks: Vec<Task>) -> Result<Agent, AllocError>
        requires no_looks { All (λ t. is_look t ≡ false) tasks.items }
        ensures { IfOk result (λ a. a ≡ fresh geometry tasks.items) }
    {
        let mut answers = Vec::with_capacity(alloc, tasks.len())?;
        answer_idle(&geometry, &tasks, &mut answers);
        let mut transition = None;
        begin(&geometry, &tasks, &answers, &mut transition);
        Ok(Agent {
            geometry,
            tasks,
            answers,
            transition,
        })
    }

    /// The next act, or `None` exactly where every task is answered.
    pub fn next(&self) -> Option<Act>
        ensures next { result ≡ next_of self.now }
        ensures there { is_some result ≡ not (has_ended self.now) }
    {
        match &self.transition {
            Some(transition) => transition.next(&self.geometry),
            None => None,
        }
    }

    /// The call under way is answered, and those after it that have no acts.
    #[inline(always)]
    fn end(&mut self, answer: Answer)
        requires { IsSome (task_of self.old) }
        ensures { self.new ≡ after_answer self.old answer }
    {
        self.answers.push_reserved(answer);
        if begin_again(&self.tasks, &self.answers, &mut self.transition) {
            return;
        }
        answer_idle(&self.geometry, &self.tasks, &mut self.answers);
        begin(
            &self.geometry,
            &self.tasks,
            &self.answers,
            &mut self.transition,
        );
    }

    /// Takes note that the next act was made and answered `old`.
    pub fn took(&mut self, old: u64)
        requires next { IsSome (next_of self.old) }
        requires readable { IsReadable self.old.stage old }
        ensures { self.new ≡ took_of self.old old }
    {
        if let Some(transition) = &mut self.transition {
            if let Some(answer) = transition.took(&self.geometry, old) {
                self.end(answer);
            }
        }
    }

    /// The next act, made on the words, if there is one. Whether it may have changed anything: it
    /// has not where the agent has no act, or had waited and waits again.
    #[inline(always)]
    pub fn turn<W: Words>(&mut self, words: &mut W) -> bool
        requires place { MayBeMade (next_of self.old) (W.words words.old) }
        requires readable { IsReadable self.old.stage
            (old_by (next_of self.old) (W.words words.old)) }
        ensures words { W.words words.new ≡ words_after (next_of self.old) (W.words words.old) }
        ensures after { self.new
            ≡ took_of self.old (old_by (next_of self.old) (W.words words.old)) }
        ensures still { result ≡ false
            → IsStill (next_of self.old) self.old.waited self.new.waited }
    {
        match &mut self.transition {
            Some(transition) => match transition.turn(&self.geometry, words) {
                Turned::Still => false,
                Turned::Goes => true,
                Turned::Ends => {
                    if let Some(answer) = transition.answer() {
                        self.end(answer);
                    }
                    true
                }
            },
            None => false,
        }
    }

    /// Whether there is a next act, and it is neither a wait after a wait nor a store of a splitting
    /// or of merging.
    fn goes_on(&self) -> bool
        ensures { IsTrue result → self.now.waited ≡ false }
    {
        match &self.transition {
            Some(transition) => transition.goes_on(),
            None => false,
        }
    }

    /// Its next acts, at most this number, made on the words, and how many they were. It stops before
    /// a wait after a wait, and before a store of a splitting or of merging; they may be none.
    pub fn go<W: Words>(&mut self, words: &mut W, most: u32) -> u32
        requires { (n : ℕ) → n < most → MayTurn (turned n (self.old, W.words words.old)) }
        ensures turned { (self.new, W.words words.new)
            ≡ turned result (self.old, W.words words.old) }
        ensures most { result ≤ most }
    {
        for made in 0..most {
            if !self.goes_on() {
                return made;
            }
            self.turn(words);
        }
        most
    }

    /// Whether the next act is a store of a splitting or of merging.
    pub fn stores(&self) -> bool
        ensures { IsTrue result → IsStoring self.now.stage }
    {
        match &self.transition {
            Some(transition) => transition.stores(),
            None => false,
        }
    }

    /// Its next stores of one value at places one after another, at most this number, as one run.
    /// It goes on as after them; they are still to be made on the words. The run isn't empty where
    /// the next act is a store of a splitting or of merging, and this number isn't 0.
    pub fn take_run(&mut self, most: usize) -> StoreRun
        ensures next { AreNext result self.old }
        ensures after { self.new ≡ stored_by result.count self.old }
        ensures most { result.count ≤ most }
        ensures some { 0 < most → IsStoring self.old.stage → 0 < result.count }
        ensures room { result.first + result.count < 2 ^ 64 }
    {
        let Some(transition) = &mut self.transition else {
            return StoreRun::empty();
        };
        transition.take_run(most)
    }

    /// Whether the last act was a lock that wasn't free, or a load of a duty word that wasn't 0: one
    /// that a barrier makes again.
    pub fn waits(&self) -> bool
        ensures { result ≡ self.now.waited }
    {
        match &self.transition {
            Some(transition) => transition.waits(),
            None => false,
        }
    }

    /// The answers so far, in the order of the tasks.
    pub fn answers(&self) -> &[Answer]
        ensures { result.now ≡ self.now.answers }
    {
        self.answers.as_slice()
    }

    /// The answers, in the order of the tasks. They are moved, not copied.
    pub fn into_answers(self) -> Vec<Answer>
        ensures { result.items ≡ self.answers }
    {
        let Agent { answers, .. } = self;
        answers
    }

    /// The number of tasks without an answer.
    pub fn left(&self) -> u64
        ensures { result ≡ length self.now.tasks - length self.now.answers }
    {
        (self.tasks.len() - self.answers.len()) as u64
    }
}

#[cfg(test)]
impl Agent {
    /// Whether the next act may answer `old`: one that looks at an L1 word answers a descriptor.
    pub fn may_take(&self, old: u64) -> bool
        ensures { IsTrue result → IsReadable self.now.stage old }
    {
        match &self.transition {
            Some(transition) => transition.may_take(old),
            None => true,
        }
    }
}
