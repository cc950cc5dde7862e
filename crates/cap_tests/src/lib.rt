//! Tests of what no contract and no command line can show, from devices to whole runs.
//!
//! No crate uses it: `rt test` runs it, and so does `rt ci`. First read `devices`, on devices over
//! std's readers and writers, `heaps`, on runs in a heap of a fixed size, and `host`, on files,
//! standard streams and messages.
#![tactic(auto)]

#[cfg(test)]
mod captures;
#[cfg(test)]
mod devices;
#[cfg(test)]
mod endings;
#[cfg(test)]
mod filters;
#[cfg(test)]
mod heaps;
#[cfg(test)]
mod host;
#[cfg(test)]
mod printing;
#[cfg(test)]
mod proper;
#[cfg(test)]
mod streams;
#[cfg(test)]
mod surface;
#[cfg(test)]
mod watched;
#[cfg(test)]
mod words;
