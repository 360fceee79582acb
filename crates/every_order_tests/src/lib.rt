//! One transition against one access of its granule in every order of their acts: a plain slow
//! check that knows the order alone, and shares nothing with what it checks.
#![tactic(auto)]

#[cfg(test)]
mod acts;
#[cfg(test)]
mod judged;
#[cfg(test)]
mod played;
