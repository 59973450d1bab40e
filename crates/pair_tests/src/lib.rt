#![tactic(auto)]

// Tests of the calls on a pair: tables of what is asked and what is answered, over cards and links of all makes.
#[cfg(test)]
mod asking;
#[cfg(test)]
mod power;
#[cfg(test)]
mod refusals;
