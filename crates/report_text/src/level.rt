/// Where a run of words is: in the level 0 table, or in a level 1 table by its number, from 0.
#[derive(Clone, Copy, Debug, PartialEq, Eq)]
pub enum Level {
    Zero,
    One(u64),
}
