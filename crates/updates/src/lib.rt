// The queue of updates that wait for their devices.
//
// An update is a field, the value asked for, its age in ticks and the line that asked; at most eight
// of a line wait, the head of all is tried first (document 01, "Turn" and "Tick"; document 02, M-106).
// No public function has a `requires`.
#![tactic(auto)]

mod line;
mod queue;
mod tick;
mod update;

pub use line::Line;
pub use queue::{Pushed, Queue, QueueFull};
pub use tick::{Fields, Ticked};
pub use update::{LineField, Update};
