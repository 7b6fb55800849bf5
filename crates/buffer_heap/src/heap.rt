ghost use Rattle.std.specs.Prelude.{◌≡◌, IsTrue, ◌≢◌, ◌+◌, ◌-◌, ◌<◌, ◌≤◌, ◌%◌, ◌^◌, ◌==◌, ◌↔◌, ℕ, pos, [], length, replicate, count_by, is_some};
ghost use Rattle.std.specs.Prelude.{Some, None, OnErr, OnOk, IfOk, ⊤};
ghost use Rattle.buffer_heap.specs.Heaps.{In, Out, Held, HeapValue, at, IsLive, IsIn, IsInAndSole, IsNamed, HasRoom, MayBeKept, IsLifted, with_place};
ghost use Rattle.buffer_heap.specs.Heaps.{with_count, with_content, count_of, content_of, lifted, released};
ghost use Rattle.buffer_heap.specs.Places.{held_of};
ghost use Rattle.sac_base.specs.Arrays.{MOST};
ghost use Rattle.sac_base.specs.declared.outcome.Released.TheVariants.{Freed};

use sac_base::{Cell, MOST_REFERENCES, Memory, Released};
use std::alloc::Global;
use std::marker::Model;
use std::mem;

/// A place in a heap, and the number of the buffer that it names there. A buffer stays at its place until it is freed, and
/// then the place may get another buffer, which has another number.
#[derive(Clone, Copy, Debug, PartialEq, Eq)]
pub struct BufferId {
    place: usize,
    born: u64,
}

impl BufferId {
    /// The place.
    pub fn place(self) -> usize
        ensures { result ≡ self.place }
    {
        self.place
    }

    /// The number of the buffer.
    pub fn born(self) -> u64
        ensures { result ≡ self.born }
    {
        self.born
    }
}

// A live buffer, or nothing where the count is 0. Then `next` is the place to try after this one.
#[derive(Drop)]
struct Place {
    // the number of the buffer
    born: u64,
    count: u64,
    cells: Vec<Cell>,
    // the number of the cells while they are handed out
    out_len: Option<usize>,
    next: usize,
}

/// Buffers of cells, each with the number of its references, and how many were taken, given back and reused so far,
/// modulo 2^64. A buffer is in, or it is out while its cells are handed out.
///
/// Each buffer that was taken was given back, or is live. Each live one has a number of its own, below that of the next.
#[derive(Drop)]
pub struct Heap {
    alloc: Global,
    places: Vec<Place>,
    // The place to try first for a new buffer, the top of a stack that runs through the vacant places' `next`.
    vacant: usize,
    // how many buffers were taken, which is the number of the next one
    births: u64,
    taken: u64,
    given: u64,
    reused: u64,
    // The cells of a buffer that was given back, for the next one of as many cells, so that these are not filled with zeros before they are written.
    spare: Vec<Cell>,
}

impl Model for Heap {
    ghost use Rattle.std.specs.Prelude.{◌≡◌, ◌+◌, ◌%◌, ◌^◌, count_by, is_some, map};
    ghost use Rattle.buffer_heap.specs.Heaps.{HeapValue};

    ghost Value = { HeapValue };

    ghost use Rattle.buffer_heap.specs.Places.{AreNumbered, held_of};

    ghost view = { λ h. record {
      places = map held_of h.places.items;
      births = h.births;
      taken = h.taken;
      given = h.given;
      reused = h.reused;
    } };

    ghost invariant = { λ h. (h.taken ≡ (h.given + count_by is_some (map held_of h.places.items)) % 2 ^ 64)
        × AreNumbered h.births (map held_of h.places.items) };
}

// Where the stack of vacant places ends: no place of a heap.
const NO_PLACE: usize = usize::MAX;

// The most cells that are kept as spare ones, as many as an array may have: cells that the kernel of the machine hands out anew cost a fault for each
// page, on the one thread that fills them with zeros.
const MOST_SPARE: usize = 16_777_216;

impl Heap {
    /// A heap with no buffer, all its counters 0. It allocates nothing.
    pub fn new(alloc: Global) -> Self
        ensures { result ≡ record { places = []; births = 0; taken = 0; given = 0; reused = 0 } }
    {
        Heap {
            alloc,
            places: Vec::new(alloc),
            vacant: NO_PLACE,
            births: 0,
            taken: 0,
            given: 0,
            reused: 0,
            spare: Vec::new(alloc),
        }
    }

    /// A heap with no buffer, all its counters 0, whose buffers have other numbers than those that the other heap has so
    /// far. It allocates nothing.
    pub fn behind(other: &Heap) -> Self
        ensures { result ≡ record { places = []; births = other.now.births; taken = 0; given = 0; reused = 0 } }
    {
        let mut heap = Heap::new(other.alloc);
        heap.births = other.births;
        heap
    }

    /// The number of the next buffer.
    pub fn births(&self) -> u64
        ensures { result ≡ self.now.births }
    {
        self.births
    }

    /// How many places there are, with those that have no buffer.
    pub fn places(&self) -> usize
        ensures { result ≡ length self.now.places }
    {
        self.places.len()
    }

    /// How many references lead to the buffer at a place, 0 where there is none.
    pub fn count_at(&self, place: usize) -> u64
        ensures { result ≡ count_of (at self.now place) }
    {
        match self.places.get(place) {
            Some(place) => place.count,
            None => 0,
        }
    }

    /// How many buffers were taken, modulo 2^64.
    pub fn taken(&self) -> u64
        ensures { result ≡ self.now.taken }
    {
        self.taken
    }

    /// How many buffers were given back, modulo 2^64.
    pub fn given(&self) -> u64
        ensures { result ≡ self.now.given }
    {
        self.given
    }

    /// How many buffers were reused, modulo 2^64.
    pub fn reused(&self) -> u64
        ensures { result ≡ self.now.reused }
    {
        self.reused
    }

    /// How many buffers are live.
    pub fn live(&self) -> u64
        ensures { result ≡ count_by is_some self.now.places }
    {
        self.places.iter().filter(|place| place.count != 0).count() as u64
    }

    /// Whether one reference alone leads to the buffer.
    pub fn is_sole(&self, id: BufferId) -> bool
        requires { IsLive self.now id.place (λ x. ⊤) }
        ensures { result ≡ (count_of (at self.now id.place) == 1) }
    {
        self.places[id.place].count == 1
    }

    /// The cells of a buffer that is in.
    pub fn cells(&self, id: BufferId) -> &[Cell]
        requires { IsLive self.now id.place IsIn }
        ensures { content_of (at self.now id.place) ≡ In result.now }
    {
        self.places[id.place].cells.as_slice()
    }

    /// A buffer of zeros with one reference.
    ///
    /// # Errors
    ///
    /// `Memory`: nothing has changed.
    pub fn take(&mut self, len: u64) -> Result<BufferId, Memory>
        requires { len ≤ MOST }
        ensures vacant { IfOk result (λ id. at self.old id.place ≡ None) }
        ensures holds { IfOk result (λ id. at self.new id.place ≡ Some (record { born = id.born; count = 1; content = In (replicate len (pos 0)) })) }
        ensures others { IfOk result (λ id. (b : ℕ) → b ≢ id.place → at self.new b ≡ at self.old b) }
        ensures number { IfOk result (λ id. (id.born ≡ self.old.births) × (self.new.births ≡ self.old.births + 1)) }
        ensures counters { OnOk result ((self.new.taken ≡ (self.old.taken + 1) % 2 ^ 64)
            × (self.new.given ≡ self.old.given) × (self.new.reused ≡ self.old.reused)) }
        ensures unchanged { OnErr result (self.new ≡ self.old) }
    {
        let mut cells = Vec::new(self.alloc);
        cells.resize(len as usize, 0)?;
        self.put(cells)
    }

    /// A buffer of these cells with one reference.
    ///
    /// # Errors
    ///
    /// `Memory`: nothing has changed.
    pub fn put(&mut self, cells: Vec<Cell>) -> Result<BufferId, Memory>
        ensures vacant { IfOk result (λ id. at self.old id.place ≡ None) }
        ensures holds { IfOk result (λ id. at self.new id.place ≡ Some (record { born = id.born; count = 1; content = In cells.items })) }
        ensures others { IfOk result (λ id. (b : ℕ) → b ≢ id.place → at self.new b ≡ at self.old b) }
        ensures number { IfOk result (λ id. (id.born ≡ self.old.births) × (self.new.births ≡ self.old.births + 1)) }
        ensures counters { OnOk result ((self.new.taken ≡ (self.old.taken + 1) % 2 ^ 64)
            × (self.new.given ≡ self.old.given) × (self.new.reused ≡ self.old.reused)) }
        ensures unchanged { OnErr result (self.new ≡ self.old) }
    {
        if self.births == u64::MAX {
            return Err(Memory);
        }
        self.store(cells)
    }

    /// A buffer with one reference whose cells are handed out: so many, of any numbers. It is out until they are settled.
    ///
    /// # Errors
    ///
    /// `Memory`: nothing has changed.
    pub fn claim(&mut self, len: u64) -> Result<(BufferId, Vec<Cell>), Memory>
        requires { len ≤ MOST }
        ensures vacant { IfOk result (λ r. at self.old r.0.place ≡ None) }
        ensures holds { IfOk result (λ r. at self.new r.0.place ≡ Some (record { born = r.0.born; count = 1; content = Out len })) }
        ensures cells { IfOk result (λ r. length r.1.items ≡ len) }
        ensures others { IfOk result (λ r. (b : ℕ) → b ≢ r.0.place → at self.new b ≡ at self.old b) }
        ensures number { IfOk result (λ r. (r.0.born ≡ self.old.births) × (self.new.births ≡ self.old.births + 1)) }
        ensures counters { OnOk result ((self.new.taken ≡ (self.old.taken + 1) % 2 ^ 64)
            × (self.new.given ≡ self.old.given) × (self.new.reused ≡ self.old.reused)) }
        ensures unchanged { OnErr result (self.new ≡ self.old) }
    {
        let cells = self.take_spare(len as usize)?;
        let id = self.put(cells)?;
        let cells = self.lift(id);
        Ok((id, cells))
    }

    /// So many cells of any numbers, which are no buffer: the spare ones, if there are as many. They are given up for at least a quarter as many, so that
    /// what is kept besides the live buffers stays small beside them.
    ///
    /// # Errors
    ///
    /// `Memory`: there is none for so many cells.
    pub fn take_spare(&mut self, len: usize) -> Result<Vec<Cell>, Memory>
        ensures length { IfOk result (λ cells. length cells.items ≡ len) }
        ensures heap { self.new ≡ self.old }
    {
        if self.spare.len() == len {
            return Ok(mem::replace(&mut self.spare, Vec::new(self.alloc)));
        }
        if self.spare.len() / 4 <= len {
            self.spare = Vec::new(self.alloc);
        }
        let mut cells = Vec::new(self.alloc);
        cells.resize(len, 0)?;
        Ok(cells)
    }

    /// Has cells as the spare ones, if they are more than those that are, and not too many.
    pub fn put_spare(&mut self, cells: Vec<Cell>)
        ensures { self.new ≡ self.old }
    {
        if self.spare.len() < cells.len() && cells.len() <= MOST_SPARE {
            self.spare = cells;
        }
    }

    /// Whether the buffer is live and in.
    pub fn is_held(&self, id: BufferId) -> bool
        ensures { IsTrue result ↔ IsLive self.now id.place (IsNamed id.born) }
    {
        match self.places.get(id.place) {
            Some(place) => place.born == id.born && place.count > 0 && place.out_len.is_none(),
            None => false,
        }
    }

    /// A law. Each live buffer has a reference, and a number of its own, which is below that of the next one; and the
    /// counters are of 64 bits.
    pub fn buffers_are_numbered(&self)
        ensures referred { (b : ℕ) (x : Held) → at self.now b ≡ Some x → 1 ≤ x.count }
        ensures below { (b : ℕ) (x : Held) → at self.now b ≡ Some x → x.born < self.now.births }
        ensures single { (b c : ℕ) (x y : Held) → at self.now b ≡ Some x → at self.now c ≡ Some y → x.born ≡ y.born → b ≡ c }
        ensures counters { (self.now.taken < 2 ^ 64) × (self.now.given < 2 ^ 64) × (self.now.reused < 2 ^ 64) }
    {
        let _places = self.places.len();
        let _taken = self.taken();
        let _given = self.given();
        let _reused = self.reused();
    }

    /// Whether the buffer is live and in, and may have one reference more.
    pub fn has_room(&self, id: BufferId) -> bool
        ensures { IsTrue result ↔ IsLive self.now id.place (HasRoom id.born) }
    {
        match self.places.get(id.place) {
            Some(place) => place.born == id.born
                && place.count > 0
                && place.count < MOST_REFERENCES
                && place.out_len.is_none(),
            None => false,
        }
    }

    /// Whether the buffer is out, with so many cells.
    pub fn is_lifted(&self, id: BufferId, len: usize) -> bool
        ensures { IsTrue result ↔ IsLive self.now id.place (IsLifted id.born len) }
    {
        match self.places.get(id.place) {
            Some(place) => place.born == id.born && place.count > 0 && place.out_len == Some(len),
            None => false,
        }
    }

    /// Gives back all buffers, however many references they have. Then as many were given back as were taken.
    pub fn clear(&mut self)
        ensures heap { self.new ≡ record self.old { places = []; given = (self.old.given + count_by is_some self.old.places) % 2 ^ 64 } }
        ensures balanced { self.new.given ≡ self.new.taken }
    {
        self.given = self.given.wrapping_add(self.live());
        self.places.clear();
        self.vacant = NO_PLACE;
    }

    /// Raises the number of the next buffer by as much as that of a heap has risen above another one's.
    ///
    /// # Errors
    ///
    /// `Memory`: nothing has changed.
    pub fn follow(&mut self, to: &Heap, from: &Heap) -> Result<(), Memory>
        ensures followed { OnOk result (self.new ≡ record self.old { births = self.old.births + (to.now.births - from.now.births) }) }
        ensures unchanged { OnErr result (self.new ≡ self.old) }
    {
        let more = to.births.saturating_sub(from.births);
        match self.births.checked_add(more) {
            Some(births) => {
                self.births = births;
                Ok(())
            }
            None => Err(Memory),
        }
    }

    /// Goes on where the other heap ended: with its number of the next buffer, and with its counters added.
    pub fn take_over(&mut self, other: Heap)
        requires empty { (b : ℕ) → at other b ≡ None }
        requires later { self.old.births ≤ other.births }
        ensures { self.new ≡ record self.old {
          births = other.births;
          taken = (self.old.taken + other.taken) % 2 ^ 64;
          given = (self.old.given + other.given) % 2 ^ 64;
          reused = (self.old.reused + other.reused) % 2 ^ 64;
        } }
    {
        self.births = other.births;
        self.absorb(other);
    }

    /// One reference more to a buffer that is in.
    pub fn keep(&mut self, id: BufferId)
        requires { IsLive self.old id.place MayBeKept }
        ensures { self.new ≡ with_place self.old id.place (with_count (at self.old id.place) (count_of (at self.old id.place) + 1)) }
    {
        self.places[id.place].count += 1;
    }

    /// One reference less to a buffer that is in. With the last one the buffer is given back.
    pub fn release(&mut self, id: BufferId) -> Released
        requires { IsLive self.old id.place IsIn }
        ensures heap { self.new ≡ released self.old id.place }
        ensures last { (result ≡ Freed) ↔ (count_of (at self.old id.place) ≡ 1) }
    {
        let place = &mut self.places[id.place];
        if place.count > 1 {
            place.count -= 1;
            return Released::More;
        }
        let cells = self.give_out(id);
        self.put_spare(cells);
        Released::Freed
    }

    /// Gives back a buffer that is in and has one reference, and hands out its cells for good.
    pub fn give_out(&mut self, id: BufferId) -> Vec<Cell>
        requires { IsLive self.old id.place IsInAndSole }
        ensures heap { self.new ≡ released self.old id.place }
        ensures cells { content_of (at self.old id.place) ≡ In result.items }
    {
        let place = &mut self.places[id.place];
        place.count = 0;
        place.next = self.vacant;
        self.vacant = id.place;
        self.given = self.given.wrapping_add(1);
        mem::replace(&mut place.cells, Vec::new(self.alloc))
    }

    /// Hands out the cells of a buffer that is in and has one reference. The buffer is out until they are settled.
    pub fn lift(&mut self, id: BufferId) -> Vec<Cell>
        requires { IsLive self.old id.place IsInAndSole }
        ensures heap { self.new ≡ lifted self.old id.place }
        ensures cells { content_of (at self.old id.place) ≡ In result.items }
    {
        let place = &mut self.places[id.place];
        place.out_len = Some(place.cells.len());
        mem::replace(&mut place.cells, Vec::new(self.alloc))
    }

    /// As `lift`, and the buffer counts as reused.
    pub fn reuse(&mut self, id: BufferId) -> Vec<Cell>
        requires { IsLive self.old id.place IsInAndSole }
        ensures heap { self.new ≡ record (lifted self.old id.place) { reused = (self.old.reused + 1) % 2 ^ 64 } }
        ensures cells { content_of (at self.old id.place) ≡ In result.items }
    {
        self.reused = self.reused.wrapping_add(1);
        self.lift(id)
    }

    /// Puts cells into a buffer that is out, as many as it has. The buffer is in again.
    pub fn settle(&mut self, id: BufferId, cells: Vec<Cell>)
        requires { IsLive self.old id.place (λ x. x.content ≡ Out (length cells.items)) }
        ensures { self.new ≡ with_place self.old id.place (with_content (at self.old id.place) (In cells.items)) }
    {
        let place = &mut self.places[id.place];
        place.out_len = None;
        place.cells = cells;
    }

    /// Adds the counters of a heap with no live buffer.
    pub fn absorb(&mut self, other: Heap)
        requires { (b : ℕ) → at other b ≡ None }
        ensures { self.new ≡ record self.old {
          taken = (self.old.taken + other.taken) % 2 ^ 64;
          given = (self.old.given + other.given) % 2 ^ 64;
          reused = (self.old.reused + other.reused) % 2 ^ 64;
        } }
    {
        self.taken = self.taken.wrapping_add(other.taken);
        self.given = self.given.wrapping_add(other.given);
        self.reused = self.reused.wrapping_add(other.reused);
    }

    // Takes a buffer of these cells, at a place that has none: at the top of the stack of vacant places, or at the end.
    fn store(&mut self, cells: Vec<Cell>) -> Result<BufferId, Memory>
        requires { self.old.births + 1 < 2 ^ 64 }
        ensures vacant { IfOk result (λ id. at self.old id.place ≡ None) }
        ensures holds { IfOk result (λ id. at self.new id.place ≡ Some (record { born = id.born; count = 1; content = In cells.items })) }
        ensures others { IfOk result (λ id. (b : ℕ) → b ≢ id.place → at self.new b ≡ at self.old b) }
        ensures number { IfOk result (λ id. (id.born ≡ self.old.births) × (self.new.births ≡ self.old.births + 1)) }
        ensures counters { OnOk result ((self.new.taken ≡ (self.old.taken + 1) % 2 ^ 64)
            × (self.new.given ≡ self.old.given) × (self.new.reused ≡ self.old.reused)) }
        ensures unchanged { OnErr result (self.new ≡ self.old) }
    {
        let born = self.births;
        let taken = self.taken.wrapping_add(1);
        let buffer = Place {
            born,
            count: 1,
            cells,
            out_len: None,
            next: NO_PLACE,
        };
        let vacant = self.vacant;
        if vacant < self.places.len() && self.places[vacant].count == 0 {
            self.vacant = self.places[vacant].next;
            self.places[vacant] = buffer;
            self.births = born + 1;
            self.taken = taken;
            return Ok(BufferId {
                place: vacant,
                born,
            });
        }
        let end = self.places.len();
        self.places.push(buffer)?;
        self.births = born + 1;
        self.taken = taken;
        Ok(BufferId { place: end, born })
    }
}
