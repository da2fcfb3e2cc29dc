// Look up of many addresses in one call. What is lent is tested once, and each pass over the answers does one small thing, so that
// many reads of the first table are under way at once and only a pointer is jumped to. Between the passes the room for the answers holds
// what the next one needs.
#![tactic(auto)]

ghost use Rattle.std.specs.Prelude.{◌≡◌, ℕ, ◌<◌, length, get_or};
ghost use Rattle.ground.specs.Refusals.{code_of};
ghost use Rattle.bulk.specs.All.{all_of};
ghost use Rattle.bulk.specs.inner.Passes.{place_of, fetched_of, verdict_or_marked, judged_of};

use cells::cell::Cell;
use ground::refusal::Refusal;
use lookup::look::{Packed, says, standing_in_cells, verdict};
use prefix::Prefix;
use prefix::geometry::{Block, block_from};

// Where the first table is read for an address: outside the territory at block 0, which is always there.
#[tactic(auto, unfolding(crate::specs::inner::Passes::place_of))]
fn place(base: u32, blocks: u32, address: u32) -> u32
    ensures { result ≡ place_of base blocks address }
{
    let block = block_from(base, address);
    if block < blocks { block } else { 0 }
}

// A first cell as it is; and of a pointer what it says for the address, marked by a pointer's bit, which no answer has.
#[tactic(auto, using(crate::proofs::Answering::said_on_words), unfolding(crate::specs::inner::Passes::fetched_of))]
fn fetched(long: &[u32], address: u32, cell: u32) -> u32
    ensures { result ≡ fetched_of long.now address cell }
{
    if !Cell::is_pointer(cell) {
        return cell;
    }
    Cell::POINTER + says(long, (address % Block::SIZE) as usize, cell)
}

// The answer that is marked, or what the first cell says.
#[tactic(auto, unfolding(crate::specs::inner::Passes::verdict_or_marked))]
fn verdict_or_marked(word: u32) -> u32
    ensures { result ≡ verdict_or_marked word }
{
    let number = verdict(word, Block::WIDTH);
    if Cell::is_pointer(word) {
        word - Cell::POINTER
    } else {
        number
    }
}

// That in the territory, and refusal 3 outside it.
#[tactic(auto, unfolding(crate::specs::inner::Passes::judged_of))]
fn judged(base: u32, blocks: u32, address: u32, word: u32) -> u32
    ensures { result ≡ judged_of base blocks address word }
{
    let number = verdict_or_marked(word);
    if block_from(base, address) < blocks {
        number
    } else {
        Packed::refused(Refusal::Outside)
    }
}

// A pass: each answer becomes what the step makes of the address at its place and of itself. By index, since after a `zip` with `iter_mut` nothing
// is known of what was written.
fn pass<F: Fn(u32, u32) -> u32>(addresses: &[u32], answers: &mut [u32], step: F)
    requires sizes { length answers.old ≡ length addresses.now }
    requires can { (i : ℕ) → i < length answers.old → F.pre step (get_or addresses.now i 0) (get_or answers.old i 0) }
    ensures sizes { length answers.new ≡ length answers.old }
    ensures each { (i : ℕ) → i < length answers.old → F.post step (get_or addresses.now i 0) (get_or answers.old i 0) (get_or answers.new i 0) }
{
    for (i, answer) in answers.iter_mut().enumerate() {
        *answer = step(addresses[i], *answer);
    }
}

// The answers to many addresses, each as one number; or refusal 1, and nothing is written, where look up would refuse every address with
// 1 or where the addresses and the answers differ in number.
#[tactic(auto, using(crate::proofs::Answering::lent_test, crate::proofs::Answering::some_cell, crate::proofs::Answering::few_cells, crate::proofs::Answering::place_lent, ground::proofs::Refusals::number_some), unfolding(crate::specs::All::all_of))]
pub fn look_up_all(
    first: &[u32],
    long: &[u32],
    territory: Prefix,
    addresses: &[u32],
    answers: &mut [u32],
) -> Result<(), Refusal>
    ensures { record { code = code_of result; answers = answers.new }
        ≡ all_of first.now long.now territory addresses.now answers.old }
{
    let base = territory.address;
    // The territory's own address is in it: what can fail is what is lent.
    standing_in_cells(first.len(), long.len(), territory, base)?;
    if addresses.len() != answers.len() {
        return Err(Refusal::WrongSizes);
    }
    let blocks = first.len() as u32;
    // Where the first table is read.
    pass(
        addresses,
        answers,
        |address, _| place(base, blocks, address),
    );
    // What stands there. Next to nothing waits for a read, so that as many as can be are under way at once; a pointer, which is rare and
    // foreseen to be none, is followed here.
    pass(
        addresses,
        answers,
        |address, at|
            requires { at < length first.now }
            ensures { result ≡ fetched_of long.entry.now address (get_or first.entry.now at 0) }
        { fetched(long, address, first[at as usize]) },
    );
    // What it says. It has no jump, so that a machine can do several cells at once.
    pass(
        addresses,
        answers,
        |address, word| judged(base, blocks, address, word),
    );
    Ok(())
}
