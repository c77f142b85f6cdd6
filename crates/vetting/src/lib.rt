// What is looked for in a field in memory before it is written or played, and in acts before they are written.
#![tactic(auto)]

mod acts;
mod cases;
mod draft;
mod linked;
mod memory;
mod named;

pub use acts::vet_acts;
pub use cases::MemoryCase;
pub use draft::Draft;
pub use memory::InMemory;
pub use named::Named;
