//! Files, a sink and a gate as the product sees them: the traits, with what each tells of itself,
//! implementations in memory and over the system, and the transfer of whole texts.
#![tactic(auto)]

mod files;
mod gate;
mod mem_files;
mod mem_sink;
mod mem_slot;
mod plan;
mod real_files;
mod real_sink;
mod sink;
mod transfers;

pub use files::{Files, Opened, Pull};
pub use gate::{Gate, OpenGate};
pub use mem_files::MemFiles;
pub use mem_sink::MemSink;
pub use real_files::RealFiles;
pub use real_sink::RealSink;
pub use sink::{Push, Sink};
pub use transfers::{ReadEnd, WriteFault, read_all, write_all};

#[cfg(test)]
mod tests;
