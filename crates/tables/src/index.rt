// A hash index over lent slots, by linear probing: an entry of 0 is vacant, and k + 1 names the place k.
// Entries stay in their slots, so a caller may keep a slot's number.
// Slots and keys come with each call, and not as one value: the slots are lent, and the keys change between calls.
ghost use Rattle.std.specs.Prelude.{◌≡◌, ◌+◌, ◌%◌, ◌<◌, length, max, replicate, Decides, MatchOption};
ghost use Rattle.tables.specs.Indexes.{Reads, LooksUp, Exact, Meets, Opens, Inserts, Keeps, Rewrites, Lasts};

use crate::keys::Keys;

#[cfg(test)]
mod tests;

// A slot, and the place that it names.
#[derive(Clone, Copy, PartialEq, Eq, Debug)]
pub struct Found {
    pub place: u16,
    pub slot: usize,
}

// Why a place was not inserted.
#[derive(Clone, Copy, PartialEq, Eq, Debug)]
pub enum NotEntered {
    // no slot was vacant
    Full,
    // its number is too high for an entry to name it
    NoEntry,
}

// The slot that names the place with the key, and that place.
// Whatever the slots hold, it is the first such slot on the key's way, unless a vacant one comes before.
#[tactic(auto, using(crate::proofs::Finding::exact_from_first))]
pub fn find<K: Keys>(slots: &[u16], keys: &K, key: &K::Key) -> Option<Found>
    ensures first { LooksUp K.Keys.kind (K.Keys.at keys.now) slots.now (K.Keys.means key.now) result }
    ensures exact { Exact K.Keys.kind (K.Keys.at keys.now) slots.now (K.Keys.means key.now) result }
{
    first_on_way(slots, keys, key)
}

// Lets the first vacant slot on the key's way name the place, and answers that slot. No other slot changes.
#[tactic(auto, using(crate::proofs::Entering::keeps_inserts))]
pub fn insert<K: Keys>(
    slots: &mut [u16],
    keys: &K,
    key: &K::Key,
    place: u16,
) -> Result<usize, NotEntered>
    ensures placed { Inserts (K.Keys.kind.hash (K.Keys.means key.now)) place slots.old slots.new result }
    ensures kept { Keeps K.Keys.kind (K.Keys.means key.now) place slots.old slots.new }
{
    enter(slots, keys.digest(key), place)
}

// Lets a slot that names a place name another one, and says whether it did, by a bool as std's `insert` of a set does.
// No other slot changes.
pub fn rewrite(slots: &mut [u16], slot: usize, place: u16) -> bool
    ensures { Rewrites slot place slots.old slots.new result }
{
    let Some(entry) = entry_of(place) else {
        return false;
    };
    // by its number: through `get_mut` the proof lost what the other slots hold
    if slot >= slots.len() || is_vacant(slots[slot]) {
        return false;
    }
    slots[slot] = entry;
    true
}

// Makes all slots vacant.
pub fn clear(slots: &mut [u16])
    ensures { slots.new ≡ replicate (length slots.old) 0 }
{
    slots.fill(0);
}

// Does nothing. Its promise is how a well-kept index lasts while places change and move.
pub fn index_lasts<K: Keys>()
    ensures { Lasts K.Keys.kind }
{}

// Lets the first vacant slot on the way of a hash name the place.
fn enter(slots: &mut [u16], hash: u32, place: u16) -> Result<usize, NotEntered>
    ensures { Inserts hash place slots.old slots.new result }
{
    let entry = entry_of(place).ok_or(NotEntered::NoEntry)?;
    let vacant = first_vacant(slots, hash).ok_or(NotEntered::Full)?;
    slots[vacant] = entry;
    Ok(vacant)
}

// The first slot on the key's way that names the place with the key, unless a vacant one comes before.
// Apart from `find`, whose other clause follows from this one.
fn first_on_way<K: Keys>(slots: &[u16], keys: &K, key: &K::Key) -> Option<Found>
    ensures { LooksUp K.Keys.kind (K.Keys.at keys.now) slots.now (K.Keys.means key.now) result }
{
    let len = slots.len();
    let mut slot = own_slot(keys.digest(key), len);
    // a for: it ends at a vacant slot and at a found key, each with its own answer
    for _step in 0..len {
        if is_vacant(slots[slot]) {
            return None;
        }
        if let Some(found) = read_slot(slot, slots[slot], keys, key) {
            return Some(found);
        }
        slot = next_slot(slot, len);
    }
    None
}

// The first vacant slot on the way of a hash, if there is a vacant one at all.
#[tactic(auto, using(crate::proofs::Probing::opens_meets))]
fn first_vacant(slots: &[u16], hash: u32) -> Option<usize>
    ensures { Opens slots.now hash result }
{
    vacant_on_way(slots, hash)
}

// The same, of the way alone: the prover finds this where the loop ends, and the other of it.
fn vacant_on_way(slots: &[u16], hash: u32) -> Option<usize>
    ensures { Meets slots.now hash result }
{
    let mut slot = own_slot(hash, slots.len());
    // a for, and no `find` over a chain of two ranges, by which a probe takes a third more
    for _step in 0..slots.len() {
        if is_vacant(slots[slot]) {
            return Some(slot);
        }
        slot = next_slot(slot, slots.len());
    }
    None
}

// The slot at which the way of a hash starts, if there are any.
fn own_slot(hash: u32, len: usize) -> usize
    ensures { result ≡ hash % max len 1 }
{
    // a cast, since `usize` has no `From<u32>`
    hash as usize % len.max(1)
}

// The slot after one. The first comes after the last.
fn next_slot(slot: usize, len: usize) -> usize
    requires { slot < len }
    ensures { result ≡ (slot + 1) % len }
{
    let next = slot + 1;
    if next == len { 0 } else { next }
}

// The slot with the place that its entry names, if that place has the key.
fn read_slot<K: Keys>(slot: usize, entry: u16, keys: &K, key: &K::Key) -> Option<Found>
    ensures { Reads (K.Keys.at keys.now) (K.Keys.means key.now) slot entry result }
{
    let place = named_place(entry)?;
    keys.holds(place, key).then_some(Found { place, slot })
}

fn is_vacant(entry: u16) -> bool
    ensures { Decides result (entry ≡ 0) }
{
    entry == 0
}

// The place that an entry names.
fn named_place(entry: u16) -> Option<u16>
    ensures { MatchOption result (entry ≡ 0) (λ k. entry ≡ k + 1) }
{
    entry.checked_sub(1)
}

// The entry that names a place; none for the highest number.
fn entry_of(place: u16) -> Option<u16>
    ensures { MatchOption result (place ≡ 65535) (λ e. (place < 65535) × (e ≡ place + 1)) }
{
    place.checked_add(1)
}
