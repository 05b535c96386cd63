// Examples at the edges.
use classes::letters::Letter;
use classes::naming::name;
use classes::sides::Sides;
use classes::spelling::is_held;
use classes::symbols;
use classes::symbols::{Spelled, Unread};
use classes::words::Word;
use costs::length::Length;
use costs::slope::Slope;
use kinds::class::Class;
use kinds::cost::Cost;
use kinds::crossing::{Crossing, Ray};
use kinds::refusal::Refusal;
use std::alloc::Global;
use std::cmp::Ordering;
use std::mem::size_of;
use std::test::Fail;

// The crossings that a text of ASCII characters stands for.
fn crossings(heap: Global, text: &str) -> Result<Vec<Crossing>, Fail> {
    let characters = text.chars().collect::<Vec<char>>(heap)?;
    let mut all = Vec::new(heap);
    symbols::read(&characters, &mut all).map_err(|unread| match unread {
        Unread::Symbol { .. } => Fail::new("no crossing"),
        Unread::Memory => Fail::new("no memory"),
    })?;
    Ok(all)
}

// The word that a text names, as it is written.
fn named(heap: Global, text: &str) -> Result<String, Fail> {
    let all = crossings(heap, text)?;
    let mut word = Vec::new(heap);
    name(&all, &mut word)?;
    Ok(Spelled(&word).to_string(heap)?)
}

// The class of a text's crossings, or none where a word on the way is not held.
fn class<C: Class>(heap: Global, text: &str) -> Result<Option<C>, Fail> {
    let all = crossings(heap, text)?;
    Ok(
        all.iter()
            .try_fold(C::unit(), |class, crossing| class.after(*crossing)),
    )
}

#[test]
fn names_words(rt: HostRuntime) -> Result<(), Fail> {
    let heap = rt.alloc();
    assert!(rt; named(heap, "")?.as_str() == "unit");
    assert!(rt; named(heap, "--")?.as_str() == "unit");
    assert!(rt; named(heap, "aA")?.as_str() == "unit");
    assert!(rt; named(heap, "baABc")?.as_str() == "c");
    assert!(rt; named(heap, "abA")?.as_str() == "abA");
    assert!(rt; named(heap, "abcdefgGFEDCBA")?.as_str() == "unit");
    assert!(rt; named(heap, "abcd-DCBA")?.as_str() == "unit");
    Ok(())
}

#[test]
fn holds_words_of_32_letters(rt: HostRuntime) -> Result<(), Fail> {
    let heap = rt.alloc();
    let text = "aaaaaaaaaaaaaaaaaaaaaaaaaaaaaaaa";
    let longer = "aaaaaaaaaaaaaaaaaaaaaaaaaaaaaaaaa";
    let word = class::<Word>(heap, text)?.ok_or_else(|| Fail::new("32 letters are held"))?;
    assert!(rt; word.as_slice().len() == 32);
    assert!(rt; size_of::<Word>() == 33);
    assert!(rt; class::<Word>(heap, longer)?.is_none());
    assert!(rt; named(heap, longer)?.as_str() == longer);
    assert!(rt; !is_held(&[Letter::LowerA; 33]));
    let back = word
        .after(Crossing::Backwards(Ray::One))
        .ok_or_else(|| Fail::new("A after 32 gives 31"))?;
    assert!(rt; back.as_slice().len() == 31);
    Ok(())
}

// How the classes of two texts compare.
fn compared<C: Class>(heap: Global, left: &str, right: &str) -> Result<Ordering, Fail> {
    match (class::<C>(heap, left)?, class::<C>(heap, right)?) {
        (Some(left), Some(right)) => Ok(left.compare(&right)),
        _ => Err(Fail::new("both are held")),
    }
}

#[test]
fn orders_classes(rt: HostRuntime) -> Result<(), Fail> {
    let heap = rt.alloc();
    assert!(rt; compared::<Word>(heap, "g", "aa")?.is_lt());
    assert!(rt; compared::<Word>(heap, "a", "A")?.is_lt());
    assert!(rt; compared::<Word>(heap, "A", "b")?.is_lt());
    assert!(rt; compared::<Word>(heap, "aB", "ab")?.is_gt());
    assert!(rt; compared::<Word>(heap, "abBc", "ac")?.is_eq());
    assert!(rt; compared::<Sides>(heap, "bcdefg", "a")?.is_lt());
    assert!(rt; compared::<Sides>(heap, "ab", "BA")?.is_eq());
    Ok(())
}

#[test]
fn inverts_and_shows(rt: HostRuntime) -> Result<(), Fail> {
    let heap = rt.alloc();
    let word = class::<Word>(heap, "abAc")?.ok_or_else(|| Fail::new("four letters are held"))?;
    assert!(rt; word.to_string(heap)?.as_str() == "abAc");
    assert!(rt; word.inverse().to_string(heap)?.as_str() == "CaBA");
    assert!(rt; Word::unit().to_string(heap)?.as_str() == "unit");
    let all = crossings(heap, "abA")?;
    assert!(rt; Sides::of(&all).to_string(heap)?.as_str() == "0100000");
    assert!(rt;
        Refusal::OutOfRange(5).to_string(heap)?.as_str()
            == "refused 6 at 5: an operand is outside its range"
    );
    assert!(rt; Refusal::NoLane.to_string(heap)?.as_str() == "refused 19: the lane is missing");
    Ok(())
}

// Whether two costs are the same.
fn alike<K: Cost>(left: K, right: K) -> bool {
    left.compare(&right).is_eq()
}

#[test]
fn costs_stop(rt: HostRuntime) {
    let top = Length::of_lane(1_000_000_000, 0);
    let below = Length::of_lane(999_999_999, 7);
    assert!(rt; alike(below.plus(Length::of_lane(1, 9)), top));
    assert!(rt; alike(below.plus(below), top));
    assert!(rt; alike(Length::limit(4_294_967_295), top));
    assert!(rt; below.compare(&top).is_lt());
    assert!(rt;
        alike(
            Slope::of_lane(1, 3).plus(Slope::of_lane(2, 9)),
            Slope::of_lane(0, 9),
        )
    );
    assert!(rt; alike(Slope::limit(1_000_000), Slope::of_lane(0, 255)));
    assert!(rt; Slope::limit(254).compare(&Slope::limit(255)).is_lt());
}
