// A search and its memory: the places, the queue of open pairs and the index slots.
ghost use Rattle.std.specs.Prelude.{◌≡◌, ℕ, ◌+◌, ◌*◌, ◌<◌, ◌≤◌, length, take, Ok, ◌≢◌, slice_set, nat_eq, position};
ghost use Rattle.std.specs.List.{ContainsAt as Has, AllByRecursion};
ghost use Rattle.tables.specs.Indexes.{Names, Indexed, Exact, Inserts, Keeps};
ghost use Rattle.tables.specs.Orders.{AtMost};
ghost use Rattle.tables.specs.Queues.{waiting};
ghost use Rattle.steps.specs.Opens.{by_bound};
ghost use Rattle.charting.specs.Searches.{Sized, Lent, Named, keys_at};
ghost use Rattle.charting.specs.Steps.{Swaps, Adds, Lowers};
ghost use Rattle.steps.specs.Keys.{pair_keys, pairing, pair_of, pair_at};

use charts::chart::Pair;
use kinds::class::Class;
use kinds::cost::Cost;
use steps::open::Open;
use steps::pairs::{Pairs, Sought};
use steps::task::Task;
use tables::index::{Found, find, insert, rewrite};
use tables::queue::Queue;

// A search as it stands: its task, the memory that is lent to it, and how many pairs are found and how many of these
// settled. Found pairs have the first places, settled ones the first of these. The slots name the places of found pairs,
// and those that are not settled yet wait in the queue.
// That the memory has its sizes and the reel is a point is asked where a search starts; from there on what it holds says so.
#[derive(Drop)]
pub(crate) struct Search<'a, 'm, 'q, M, C, K> {
    pub(crate) task: &'a Task<'m, M>,
    pub(crate) places: &'a mut [Pair<C, K>],
    pub(crate) queue: &'a mut Queue<'q, Open<K>>,
    pub(crate) slots: &'a mut [u16],
    pub(crate) found: u16,
    pub(crate) settled: u16,
}

impl<M, C: Class, K: Cost> Search<'_, '_, '_, M, C, K> {
    // The place and slot of a pair among those found.
    pub(crate) fn look_up(&self, point: u16, class: C) -> Option<Found>
        requires { self.now.found ≤ length self.now.places.now }
        ensures { Exact (pair_keys C.Class) (keys_at C.Class self.now) self.now.slots.now (pairing C.Class point (C.Class.element class)) result }
    {
        let pairs = Pairs {
            found: &self.places[..usize::from(self.found)],
        };
        find(self.slots, &pairs, &Sought { point, class })
    }

    // The slot that names a found place.
    fn slot_of(&self, place: u16) -> usize
        requires within { place < self.now.found }
        requires named { Named C.Class self.now }
        ensures { Names self.now.slots.now result place }
    {
        let pair = self.places[usize::from(place)];
        // by `map_or` it gets no proof: what the closure gives is not known there
        match self.look_up(pair.point, pair.class) {
            Some(at) => at.slot,
            None => 0,
        }
    }

    // Swaps the pairs at two found places, of which one is named by `slot`, and lets the slots name them.
    pub(crate) fn exchange(&mut self, place: u16, slot: usize, other: u16)
        requires here { place < self.old.found }
        requires there { other < self.old.found }
        requires names { Names self.old.slots.now slot place }
        requires named { Named C.Class self.old }
        ensures lent { Lent self.old self.new }
        ensures settled { self.new.settled ≡ self.old.settled }
        ensures found { self.new.found ≡ self.old.found }
        ensures queue { self.new.queue.now ≡ self.old.queue.now }
        ensures places { Swaps self.old.places.now self.new.places.now other place }
        ensures slots { (u : ℕ) × Names self.old.slots.now u other × (self.new.slots.now ≡ slice_set (slice_set self.old.slots.now slot (other + 1)) u (place + 1)) }
    {
        let other_slot = self.slot_of(other);
        self.places.swap(usize::from(other), usize::from(place));
        rename(self.slots, slot, other);
        rename(self.slots, other_slot, place);
    }

    // Puts a pair at the next place, which a slot names then, and lets it wait.
    #[tactic(auto, using(crate::proofs::Queues::pushes_so))]
    pub(crate) fn add(&mut self, pair: Pair<C, K>, bound: K)
        requires sized { Sized self.old.places.now self.old.queue.now self.old.slots.now }
        requires room { self.old.found < length self.old.places.now }
        requires waits { length (waiting self.old.queue.now) ≤ self.old.found }
        requires indexed { Indexed (pair_keys C.Class) (keys_at C.Class self.old) self.old.slots.now }
        ensures lent { Lent self.old self.new }
        ensures settled { self.new.settled ≡ self.old.settled }
        ensures found { self.new.found ≡ self.old.found + 1 }
        ensures added { Adds C.Class K.Cost self.old.found pair bound self.old.places.now self.old.slots.now (waiting self.old.queue.now) self.new.places.now self.new.slots.now (waiting self.new.queue.now) }
    {
        self.places[usize::from(self.found)] = pair;
        // lent one by one: `name_next(self.places, self.slots, ..)` gets no proof
        let found = self.found;
        let places = &mut *self.places;
        let slots = &mut *self.slots;
        let slot = name_next(places, slots, found, pair);
        // as: it fits, since there are no more than 8,192 slots
        let _ = self.queue.push(Open {
            bound,
            cost: pair.cost,
            slot: slot as u16,
        });
        self.found += 1;
    }

    // Puts a cheaper pair in the place of an open one, and lets its record wait at its new cost.
    pub(crate) fn lower(&mut self, place: u16, slot: u16, pair: Pair<C, K>, bound: K)
        requires room { place < length self.old.places.now }
        requires waits { AllByRecursion (λ w. w.slot ≢ slot) (waiting self.old.queue.now) → ⊥ }
        requires less { (w : Open K) → Has (waiting self.old.queue.now) w → w.slot ≡ slot → AtMost (by_bound K.Cost.costs) (record { bound = bound; cost = pair.cost; slot = slot }) w }
        ensures lent { Lent self.old self.new }
        ensures settled { self.new.settled ≡ self.old.settled }
        ensures found { self.new.found ≡ self.old.found }
        ensures slots { self.new.slots.now ≡ self.old.slots.now }
        ensures places { self.new.places.now ≡ slice_set self.old.places.now place pair }
        ensures lowers { Lowers K.Cost slot (record { bound = bound; cost = pair.cost; slot = slot }) (waiting self.old.queue.now) (waiting self.new.queue.now) }
    {
        if let Some(waits) = waiting_at(self.queue, slot) {
            self.places[usize::from(place)] = pair;
            let _ = self.queue.lower(
                waits,
                Open {
                    bound,
                    cost: pair.cost,
                    slot,
                },
            );
        }
    }
}

// Lets a slot that names a place name another one.
#[tactic(auto, using(crate::proofs::Renames::renamed))]
fn rename(slots: &mut [u16], slot: usize, place: u16)
    requires low { place < 65535 }
    requires taken { (p : ℕ) × Names slots.old slot p }
    ensures { slots.new ≡ slice_set slots.old slot (place + 1) }
{
    let _ = rewrite(slots, slot, place);
}

// Lets a slot name the place after those found, which holds a new pair. (As a method, which reads the places while it
// writes the slots, it gets no proof.)
fn name_next<C: Class, K: Cost>(
    places: &[Pair<C, K>],
    slots: &mut [u16],
    found: u16,
    pair: Pair<C, K>,
) -> usize
    requires few { length places.now ≤ 4096 }
    requires room { found < length places.now }
    requires slotted { length slots.old ≡ 2 * length places.now }
    requires indexed { Indexed (pair_keys C.Class) (pair_at C.Class (take (found + 1) places.now)) slots.old }
    ensures inserts { Inserts ((pair_keys C.Class).hash (pair_of C.Class pair)) found slots.old slots.new (Ok result) }
    ensures keeps { Keeps (pair_keys C.Class) (pair_of C.Class pair) found slots.old slots.new }
{
    let pairs = Pairs {
        found: &places[..usize::from(found) + 1],
    };
    let key = Sought {
        point: pair.point,
        class: pair.class,
    };
    insert(slots, &pairs, &key, found).unwrap_or(0)
}

// Where in the queue the record with this slot waits.
fn waiting_at<K: Cost>(queue: &Queue<Open<K>>, slot: u16) -> Option<usize>
    ensures { result ≡ position (λ w. nat_eq w.slot slot) (waiting queue.now) }
{
    queue.as_slice().iter().position(|open| open.slot == slot)
}
