//! Where bytes come from and where they go, with the causes of what goes wrong there.
//!
//! `Source` and `Sink` say what a read, a write and a flush do to the bytes that are told, and that a call fails only
//! where the count of faults of the object rose in it (`specs/Faults.antt`). `MemSource` and `MemSink` are both in
//! memory and fail where they are told to; their contracts give every answer and every next state exactly.
//! `StdSource` and `StdSink` stand thinly over std, and are as sound as what they stand on. Only `MemSink::new` takes
//! memory. `Turned` is what a run answers between its rounds, and `Gate` what each part of a round goes through.
#![tactic(auto)]

mod gate;
mod mem_sink;
mod mem_source;
mod memory;
mod standard;
mod traits;

pub use gate::{Gate, OpenGate, Turned};
pub use mem_sink::MemSink;
pub use mem_source::MemSource;
pub use memory::Mem;
pub use standard::{StdSink, StdSource};
pub use traits::{Failed, Sink, Source, write_all};
