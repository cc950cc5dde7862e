//! Tests of cap_io that no command line can show: how often a device is asked and memory is taken,
//! and what a source or a sink returns after its end or its error.

mod captures;
mod memory;
mod reading;
mod writing;
