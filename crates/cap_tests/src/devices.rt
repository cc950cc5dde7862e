//! Tests of cap_octet: devices over std's readers and writers, times as dates.

mod courses;
mod marked;
mod reads;
mod streams;
mod times;
mod writes;
