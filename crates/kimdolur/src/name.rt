// `kimdolur name`: the class that a list of crossings names.
use classes::letters::Letter;
use classes::sides::Sides;
use classes::symbols::Spelled;
use classes::words::LONGEST;
use classes::{naming, spelling, symbols};
use kinds::crossing::Crossing;
use std::alloc::Global;

// The crossings that a text stands for, or what is wrong with it.
fn read(heap: Global, text: &str) -> anyhow::Result<Vec<Crossing>> {
    let symbols = text.chars().collect::<Vec<char>>(heap)?;
    let mut crossings = Vec::new(heap);
    symbols::read(&symbols, &mut crossings)?;
    Ok(crossings)
}

// Prints the word of the crossings, whether it is held, and their sides.
fn print(rt: &HostRuntime, text: &str, word: &[Letter], sides: Sides) -> anyhow::Result<()> {
    let spelled = Spelled(word);
    let count = word.len();
    let held = if spelling::is_held(word) {
        "held"
    } else {
        "not held"
    };
    println!(rt; "crossings {text}")?;
    println!(rt; "word {spelled}")?;
    println!(rt; "{held}, {count} of at most {LONGEST} letters")?;
    println!(rt; "sides {sides}")?;
    Ok(())
}

pub(crate) fn run(rt: &HostRuntime, text: &str) -> anyhow::Result<()> {
    let crossings = read(rt.alloc(), text)?;
    let mut word = Vec::new(rt.alloc());
    naming::name(&crossings, &mut word)?;
    print(rt, text, &word, Sides::of(&crossings))
}
