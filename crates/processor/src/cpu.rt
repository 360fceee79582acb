ghost use Rattle.std.specs.Prelude.{◌≡◌, ℕ, ◌-◌, ◌≤◌, ◌<◌, ◌++◌, IfOk, Some, IfSome, IsSome, is_some};
ghost use Rattle.std.specs.Prelude.{IsTrue, not, length, drop, slice_get, vec_capacity};
ghost use Rattle.std.specs.List.{All};
ghost use Rattle.shared_words.specs.Next.{old_by, words_after, MayBeMade};
ghost use Rattle.processor.specs.Accesses.{IsAccess, block_answer};
ghost use Rattle.processor.specs.InnerCpus.{task_of, idle_answer, idle_answers, fresh, has_ended};
ghost use Rattle.processor.specs.InnerCpus.{next_of, after_answer, took_of, goes_to, HasActs, IsReadable};
ghost use Rattle.processor.specs.InnerCpus.{turned, decided, leaving, MayTurn};
ghost use Rattle.processor.specs.InnerProgress as stage;
ghost use Rattle.processor.specs.InnerProgress.{no_generations};
ghost use Rattle.history.specs.declared.call.Task.{Task as TheTask};
ghost use Rattle.gpt_descriptors.specs.declared.size.Size.TheVariants as size;

use crate::progress::{Progress, hit_by};
use alias_clean::touch;
use gpi_values::{Gpi, Space, permits};
use gpt_descriptors::{Geometry, tag_size};
use history::{Access, Answer, OldWalk, Task, Via};
use invalidate::{gen_load, off, on};
use shared_words::{Act, Words};
use std::alloc::{AllocError, Global};
use std::marker::Model;
use walk_cache::{Walk, WalkCache};

/// A processor: a list of accesses that it makes one after another, act by act, and its ring of kept
/// walks.
#[derive(Debug, Drop)]
pub struct Cpu {
    geometry: Geometry,
    number: u32,
    tasks: Vec<Task>,
    answers: Vec<Answer>,
    cache: WalkCache,
    progress: Progress,
}

impl Model for Cpu {
    ghost use Rattle.std.specs.Prelude.{◌≤◌, length, vec_capacity};
    ghost use Rattle.processor.specs.InnerProgress.{stage_of};
    ghost use Rattle.processor.specs.InnerCpus.{CpuData, IsCpu};

    ghost Value = { CpuData };

    ghost view = { λ q. record {
      geometry = q.geometry;
      number = q.number;
      tasks = q.tasks.items;
      answers = q.answers.items;
      cache = q.cache;
      stage = stage_of q.progress;
    } };

    ghost invariant = { λ q. IsCpu (record {
      geometry = q.geometry;
      number = q.number;
      tasks = q.tasks.items;
      answers = q.answers.items;
      cache = q.cache;
      stage = stage_of q.progress;
    }) × (length q.tasks.items ≤ vec_capacity q.answers) };
}

/// The answer of an access in a space, at an L0 block of this GPI.
fn block_answer(space: Space, gpi: Gpi) -> Answer
    ensures { result ≡ block_answer space gpi }
{
    Answer::Seen(Access {
        allowed: permits(gpi, space),
        gpi,
        level: 0,
        via: Via::Still,
    })
}

/// The answer of an access that has no acts.
fn idle_answer(geometry: &Geometry, task: Task) -> Option<Answer>
    requires { IsAccess geometry.now task }
    ensures { result ≡ idle_answer geometry.now task }
{
    match task {
        Task::Look(pa, space) => match geometry.block_gpi(pa) {
            Some(gpi) => Some(block_answer(space, gpi)),
            None => None,
        },
        _ => None,
    }
}

/// Answers the accesses without acts, from the first one without an answer up to one with acts.
fn answer_idle(geometry: &Geometry, tasks: &[Task], answers: &mut Vec<Answer>)
    requires accesses { All (IsAccess geometry.now) tasks.now }
    requires room { length tasks.now ≤ vec_capacity answers.old }
    requires within { length answers.old.items ≤ length tasks.now }
    ensures items { answers.new.items ≡ answers.old.items
        ++ idle_answers geometry.now (drop (length answers.old.items) tasks.now) }
    ensures acts { HasActs geometry.now (slice_get tasks.now (length answers.new.items)) }
    ensures within { length answers.new.items ≤ length tasks.now }
    ensures capacity { vec_capacity answers.new ≡ vec_capacity answers.old }
{
    for task in &tasks[answers.len()..] {
        match idle_answer(geometry, *task) {
            Some(answer) => answers.push_reserved(answer),
            None => return,
        }
    }
}

impl Cpu {
    /// A processor before its first act, by its number below the geometry's `cpus`. Each task is an
    /// access inside the protected space; the leading ones without acts are answered.
    pub fn new(
        alloc: Global,
        geometry: Geometry,
        number: u32,
        tasks: Vec<Task>,
    ) -> Result<Cpu, AllocError>
        requires number { number < geometry.cpus }
        requires accesses { All (IsAccess geometry) tasks.items }
        ensures { IfOk result (λ q. q ≡ fresh geometry number tasks.items) }
    {
        let cache = WalkCache::new(alloc, geometry.setup().ring())?;
        let mut answers = Vec::with_capacity(alloc, tasks.len())?;
        answer_idle(&geometry, &tasks, &mut answers);
        Ok(Cpu {
            geometry,
            number,
            tasks,
            answers,
            cache,
            progress: Progress::new(),
        })
    }

    /// The task under way, the first one without an answer, if there is one.
    fn task(&self) -> Option<Task>
        ensures task { result ≡ task_of self.now }
        ensures access { IfSome result (IsAccess self.now.geometry) }
    {
        self.tasks.get(self.answers.len()).copied()
    }

    /// The next act, or `None` exactly where every access is answered.
    pub fn next(&self) -> Option<Act>
        ensures next { result ≡ next_of self.now }
        ensures there { is_some result ≡ not (has_ended self.now) }
    {
        match self.task()? {
            Task::Look(pa, space) => { self.progress.next(&self.geometry, self.number, pa, space) }
            _ => None,
        }
    }

    /// The access under way is answered, and those after it that have no acts.
    #[inline(always)]
    fn end(&mut self, answer: Answer)
        requires { IsSome (task_of self.old) }
        ensures { self.new ≡ after_answer self.old answer }
    {
        self.answers.push_reserved(answer);
        answer_idle(&self.geometry, &self.tasks, &mut self.answers);
        self.progress.restart();
    }

    /// Takes note that the next act was made and answered `old`.
    pub fn took(&mut self, old: u64)
        requires next { IsSome (next_of self.old) }
        requires readable { IsReadable self.old.stage old }
        ensures { self.new ≡ took_of self.old old }
    {
        if let Some(Task::Look(pa, space)) = self.task() {
            match self.progress.answer() {
                Some(answer) => self.end(answer),
                None => {
                    self.progress
                        .took(&self.geometry, &mut self.cache, pa, space, old)
                }
            }
        }
    }

    /// The next act, made on the words, if there is one. Whether there was one.
    #[inline(always)]
    pub fn turn<W: Words>(&mut self, words: &mut W) -> bool
        requires place { MayBeMade (next_of self.old) (W.words words.old) }
        requires readable { IsReadable self.old.stage
            (old_by (next_of self.old) (W.words words.old)) }
        ensures words { W.words words.new ≡ words_after (next_of self.old) (W.words words.old) }
        ensures after { self.new
            ≡ took_of self.old (old_by (next_of self.old) (W.words words.old)) }
        ensures made { result ≡ is_some (next_of self.old) }
    {
        if let Some(Task::Look(pa, space)) = self.task() {
            let Cpu {
                geometry,
                number,
                cache,
                progress,
                ..
            } = self;
            if progress.turn(geometry, cache, *number, pa, space, words) {
                if let Some(answer) = self.progress.answer() {
                    self.end(answer);
                }
            }
            true
        } else {
            false
        }
    }

    /// The access under way goes to the tables; this kept walk can't be used.
    fn walks(&mut self, pa: u64, space: Space, missed: Option<OldWalk>)
        requires { task_of self.old ≡ Some (TheTask.Look pa space) }
        ensures { self.new ≡ goes_to self.old self.old.cache
            (stage.Loading size.Two no_generations missed) }
    {
        self.progress.begin_walk(missed);
    }

    /// The touch of an access that is decided, where it is allowed. How many acts that was.
    #[inline(always)]
    fn touches<W: Words>(&self, pa: u64, space: Space, access: Access, words: &mut W) -> u32
        requires task { task_of self.now ≡ Some (TheTask.Look pa space) }
        requires may { MayTurn (decided self.now access, W.words words.old) }
        ensures turned { (leaving self.now access, W.words words.new)
            ≡ turned result (decided self.now access, W.words words.old) }
        ensures most { result ≤ 1 }
    {
        if !access.allowed {
            return 0;
        }
        match touch(&self.geometry, pa, space) {
            Some(act) => {
                words.apply(act);
                1
            }
            None => 0,
        }
    }

    /// The last acts of an access that is decided, and how many they were.
    #[inline(always)]
    fn leave<W: Words>(&mut self, pa: u64, space: Space, access: Access, words: &mut W) -> u32
        requires task { task_of self.old ≡ Some (TheTask.Look pa space) }
        requires may { (n : ℕ) → n < 2
            → MayTurn (turned n (decided self.old access, W.words words.old)) }
        ensures turned { (self.new, W.words words.new)
            ≡ turned result (decided self.old access, W.words words.old) }
        ensures most { result ≤ 2 }
    {
        let touches = self.touches(pa, space, access, words);
        words.apply(off(&self.geometry, self.number));
        self.end(Answer::Seen(access));
        1 + touches
    }

    /// The first acts of an access, and how many they were: all of them where a kept walk decides
    /// it, else those before the tables are walked.
    #[inline(always)]
    fn search<W: Words>(&mut self, pa: u64, space: Space, words: &mut W) -> u32
        requires task { task_of self.old ≡ Some (TheTask.Look pa space) }
        requires starting { self.old.stage ≡ stage.Starting }
        requires may { (n : ℕ) → n < 4 → MayTurn (turned n (self.old, W.words words.old)) }
        ensures turned { (self.new, W.words words.new)
            ≡ turned result (self.old, W.words words.old) }
        ensures most { result ≤ 4 }
    {
        words.apply(on(&self.geometry, self.number));
        let Some(walk) = self.cache.newest(pa) else {
            self.walks(pa, space, None);
            return 1;
        };
        let Walk { reach, tag, .. } = walk;
        let at = words.apply(gen_load(&self.geometry, tag_size(reach), pa));
        if at != tag {
            self.walks(pa, space, Some(OldWalk { reach, tag, at }));
            return 2;
        }
        let access = hit_by(&self.geometry, pa, space, &walk);
        2 + self.leave(pa, space, access, words)
    }

    /// A whole access that a kept walk decides, or the acts before the tables are walked, where an
    /// access begins and at least four acts may be made; else nothing. How many acts they were.
    #[inline(always)]
    pub fn look<W: Words>(&mut self, words: &mut W, most: u32) -> u32
        requires { (n : ℕ) → n < most → MayTurn (turned n (self.old, W.words words.old)) }
        ensures turned { (self.new, W.words words.new)
            ≡ turned result (self.old, W.words words.old) }
        ensures most { result ≤ most }
    {
        if most < 4 || !self.progress.is_starting() {
            return 0;
        }
        match self.task() {
            Some(Task::Look(pa, space)) => self.search(pa, space, words),
            _ => 0,
        }
    }

    /// The answers so far, in the order of the accesses.
    pub fn answers(&self) -> &[Answer]
        ensures { result.now ≡ self.now.answers }
    {
        self.answers.as_slice()
    }

    /// The answers, in the order of the accesses. They are moved, not copied.
    pub fn into_answers(self) -> Vec<Answer>
        ensures { result.items ≡ self.answers }
    {
        let Cpu { answers, .. } = self;
        answers
    }

    /// The number of accesses without an answer.
    pub fn left(&self) -> u64
        ensures { result ≡ length self.now.tasks - length self.now.answers }
    {
        (self.tasks.len() - self.answers.len()) as u64
    }
}

#[cfg(test)]
impl Cpu {
    /// Whether the next act may answer `old`: one that loads an L1 word answers a descriptor.
    pub fn may_take(&self, old: u64) -> bool
        ensures { IsTrue result → IsReadable self.now.stage old }
    {
        self.progress.may_take(old)
    }

    /// Whether the next act, if there is one, is made on one of these words and may answer what it
    /// answers there.
    pub fn may_turn(&self, words: &[u64]) -> bool
        ensures place { IsTrue result → MayBeMade (next_of self.now) words.now }
        ensures readable { IsTrue result
            → IsReadable self.now.stage (old_by (next_of self.now) words.now) }
    {
        match self.next() {
            Some(Act::Load(place)) => place < words.len() && self.may_take(words[place]),
            Some(Act::Or(place, _)) => place < words.len() && self.may_take(words[place]),
            Some(Act::Store(place, _)) => place < words.len() && self.may_take(0),
            Some(_) => false,
            None => self.may_take(0),
        }
    }
}
