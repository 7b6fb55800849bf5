// What the seats of a phase know. No value of these types is made.
use std::collections::LinkedList;

pub struct FrameView<T> {
    // The count of each shared buffer when the phase began.
    pub opening: LinkedList<u64>,
    // The part of each chunk.
    pub parts: LinkedList<T>,
    // How many worker seats were made, and how many have not left.
    pub made: u64,
    pub out: u64,
    // The chunks of the seats that left, each with the number of its seat.
    pub drawn: LinkedList<(u64, u64)>,
    // How many of the seats that left had drawn until there was no chunk left.
    pub nones: u64,
}

pub struct WorkerView<T> {
    pub parts: LinkedList<T>,
    pub buffers: u64,
    pub number: u64,
    // The shared buffers that it holds, one as often as it is held.
    pub holds: LinkedList<u64>,
    pub drawn: LinkedList<u64>,
    // Its last draw found no chunk left.
    pub ended: bool,
}

pub enum View<T> {
    Frame(FrameView<T>),
    Worker(WorkerView<T>),
    // Of a seat that left.
    Spent,
}
