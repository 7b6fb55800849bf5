// What a computed cell came to.
use sac_base::Stop;

/// What a computed cell came to.
#[derive(Clone, Copy)]
pub enum CellEnd {
    /// Its elements were written.
    Value,
    /// No generator of a fold holds the index.
    NotHeld,
    Stopped(Stop),
}
