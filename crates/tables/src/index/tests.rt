// The index over numbers, of which only the tens are the key: 31 and 38 have one key.
ghost use Rattle.std.specs.Prelude.{ℕ, ◌/◌, ◌%◌, length, if◌then◌else◌, Some, None, nat_lt, slice_index};

use super::*;

#[derive(Drop)]
struct Tens<'a> {
    numbers: &'a [u16],
}

impl Keys for Tens<'_> {
    type Key = u16;

    ghost kind = { record { Meaning = ℕ; hash = λ tens. tens % 4 } };

    ghost means = { λ n. n / 10 };

    ghost at = { λ s k. (if nat_lt k (length s.numbers.now) then Some (slice_index s.numbers.now k / 10) else None) };

    fn digest(&self, key: &u16) -> u32 {
        u32::from(*key / 10 % 4)
    }

    fn holds(&self, place: u16, key: &u16) -> bool {
        let number = self.numbers.get(usize::from(place));
        number.is_some_and(|n| *n / 10 == *key / 10)
    }
}

#[test]
fn no_slots(rt: HostRuntime) {
    let keys = Tens { numbers: &[31] };
    let mut slots = [];
    assert_eq!(rt; insert(&mut slots, &keys, &31, 0), Err(NotEntered::Full));
    assert_eq!(rt; find(&slots, &keys, &31), None);
    assert!(rt; !rewrite(&mut slots, 0, 0));
}

#[test]
fn one_slot(rt: HostRuntime) {
    let keys = Tens { numbers: &[31, 70] };
    let mut slots = [0];
    assert_eq!(rt; insert(&mut slots, &keys, &31, 0), Ok(0));
    assert_eq!(rt; insert(&mut slots, &keys, &70, 1), Err(NotEntered::Full));
    assert_eq!(rt; find(&slots, &keys, &38), Some(Found { place: 0, slot: 0 }));
    assert_eq!(rt; find(&slots, &keys, &70), None);
}

// 31, 70 and 112 have one hash, 3: over four slots the second wraps to the first slot.
#[test]
fn one_hash(rt: HostRuntime) {
    let keys = Tens {
        numbers: &[31, 70, 112],
    };
    let mut slots = [0, 0, 0, 0];
    assert_eq!(rt; insert(&mut slots, &keys, &31, 0), Ok(3));
    assert_eq!(rt; insert(&mut slots, &keys, &70, 1), Ok(0));
    assert_eq!(rt; insert(&mut slots, &keys, &112, 2), Ok(1));
    assert_eq!(rt;
        find(&slots, &keys, &119),
        Some(Found { place: 2, slot: 1 })
    );
    assert_eq!(rt; find(&slots, &keys, &150), None);
}

// Every slot is taken, some by places that do not exist: a key that is missing is still answered.
#[test]
fn full_slots(rt: HostRuntime) {
    let keys = Tens { numbers: &[31, 70] };
    let mut slots = [2, 9, 65535, 1];
    assert_eq!(rt; find(&slots, &keys, &70), Some(Found { place: 1, slot: 0 }));
    assert_eq!(rt; find(&slots, &keys, &112), None);
    assert_eq!(rt; insert(&mut slots, &keys, &112, 2), Err(NotEntered::Full));
    assert_eq!(rt;
        insert(&mut slots, &keys, &112, 65535),
        Err(NotEntered::NoEntry)
    );
}

#[test]
fn moved_places(rt: HostRuntime) {
    let mut slots = [2, 0, 1];
    assert!(rt; rewrite(&mut slots, 0, 0) && rewrite(&mut slots, 2, 1));
    assert!(rt;
        !rewrite(&mut slots, 1, 0) && !rewrite(&mut slots, 3, 0) && !rewrite(&mut slots, 0, 65535)
    );
    let keys = Tens { numbers: &[31, 70] };
    assert_eq!(rt; find(&slots, &keys, &31), Some(Found { place: 0, slot: 0 }));
    clear(&mut slots);
    assert_eq!(rt; find(&slots, &keys, &31), None);
}
