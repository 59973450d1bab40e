// Fields, bitmaps and cards on examples.
#![tactic(auto)]

#[cfg(test)]
mod bitmaps;
#[cfg(test)]
mod cards;
#[cfg(test)]
mod fields;
