//! Tests of the calls on worlds: what is stored, which values are of a type, which worlds are
//! well-formed, what keeps a world from being so, the text of a world, and what is told of policies in
//! it. Worlds, their schema and policies are read from their texts.
#![tactic(auto)]

#[cfg(test)]
mod choices;
#[cfg(test)]
mod default_worlds;
#[cfg(test)]
mod replays;
#[cfg(test)]
mod samples;
#[cfg(test)]
mod stores;
#[cfg(test)]
mod well_formed_worlds;
#[cfg(test)]
mod world_json;
