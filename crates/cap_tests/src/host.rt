//! What no clause speaks of: files, standard streams and messages.

mod folder;
mod identities;
mod mistakes;
mod outputs;
mod progress;
mod runs;
mod streams;
mod told;
mod waits;
