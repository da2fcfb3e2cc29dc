// The words of octets, one for each hop: cleared, and booked into by the hop that look up names.
#![tactic(auto)]

ghost use Rattle.std.specs.Prelude.{◌≡◌, not, eqb, length};
ghost use Rattle.ground.specs.Refusals.{code_of};
ghost use Rattle.lookup.specs.Lookup.{unpacked_of};
ghost use Rattle.octets.specs.Words.{word_count};
ghost use Rattle.octets.specs.Booking.{refusal_of, enter, clear_octets, book};
ghost use Rattle.octets.specs.Many.{book_all};
ghost use Rattle.octets.specs.inner.Numbers.{IsNumber, AreNumbers, enter_each};

pub mod words;

use bulk::look_up_all;
use ground::refusal::{Refusal, code};
use lookup::look::{Packed, answer};
use prefix::Prefix;
use words::Words;

// Sets every word to 0, or refuses with 1.
#[tactic(auto, using(crate::proofs::Entering::cleared), unfolding(crate::specs::Booking::clear_octets))]
pub fn clear_octets(octets: &mut [u64]) -> Result<(), Refusal>
    ensures { record { code = code_of result; words = octets.new } ≡ clear_octets octets.old }
{
    if octets.len() != Words::COUNT {
        return Err(Refusal::WrongSizes);
    }
    octets.fill(0);
    Ok(())
}

// Whether look up's number refuses a record: any refusal does but "no route". Both are asked and neither is jumped to, since no processor
// foresees whether the next address has a route: by a match of the Result `book_all` took up to twice its time.
#[tactic(auto, unfolding(crate::specs::Booking::refusal_of))]
fn refuses(number: u32) -> bool
    ensures { result ≡ not (eqb (refusal_of (unpacked_of number).code) 0) }
{
    let code = Packed::code(number);
    (code != 0) & (code != u32::from(Refusal::NoRoute))
}

// Books an amount by look up's number. The hop of "no route" is 0, and so is its word.
#[tactic(auto, unfolding(crate::specs::Booking::enter, crate::specs::Booking::add_to, crate::specs::Booking::refusal_of))]
fn enter(octets: &mut [u64], number: u32, amount: u64) -> Result<(), Refusal>
    requires { (length octets.old ≡ word_count) × IsNumber number }
    ensures { record { code = code_of result; words = octets.new } ≡ enter (unpacked_of number) amount octets.old }
{
    if refuses(number) {
        Packed::unpack(number)?;
    }
    let hop = Packed::hop(number) as usize;
    let word = octets[hop];
    // The sum is not formed before it is known to fit.
    if Words::MOST < word || Words::MOST - word < amount {
        return Err(Refusal::TooManyOctets);
    }
    octets[hop] = word + amount;
    Ok(())
}

// Books a flow: its octets are added to the word of the hop that look up names, or to word 0 where there is no route. Refusals 1, 3, 4
// and 30.
#[tactic(auto, using(crate::proofs::Entering::unpacked_number), unfolding(crate::specs::Booking::book))]
pub fn book(
    first: &[u32],
    long: &[u32],
    octets: &mut [u64],
    territory: Prefix,
    address: u32,
    amount: u64,
) -> Result<(), Refusal>
    ensures { record { code = code_of result; words = octets.new }
        ≡ book first.now long.now territory address amount octets.old }
{
    if octets.len() != Words::COUNT {
        return Err(Refusal::WrongSizes);
    }
    enter(octets, answer(first, long, territory, address), amount)
}

// Books by look up's answers, which the room holds as numbers, and leaves there the number of each record. By index, since after a `zip` with
// `iter_mut` nothing is known of what was written.
fn enter_all(octets: &mut [u64], amounts: &[u64], codes: &mut [u32])
    requires sizes { (length octets.old ≡ word_count) × (length amounts.now ≡ length codes.old) }
    requires numbers { AreNumbers codes.old }
    ensures { record { codes = codes.exit.now; words = octets.new }
        ≡ enter_each codes.entry.now amounts.now octets.old }
{
    for (i, room) in codes.iter_mut().enumerate() {
        *room = code(enter(octets, *room, amounts[i]));
    }
}

// Books many flows, one after the other, and leaves the number of each in a room of its own; or refuses with 1, and writes nothing, where
// `book` would answer 1 or the three counts differ. All addresses are looked up first: no booking changes what look up answers.
#[tactic(auto, using(ground::proofs::Refusals::number_some), unfolding(crate::specs::Many::book_all, bulk::specs::All::all_of))]
pub fn book_all(
    first: &[u32],
    long: &[u32],
    octets: &mut [u64],
    territory: Prefix,
    addresses: &[u32],
    amounts: &[u64],
    codes: &mut [u32],
) -> Result<(), Refusal>
    ensures { record { code = code_of result; words = octets.new; codes = codes.new }
        ≡ book_all first.now long.now territory addresses.now amounts.now
        codes.old octets.old }
{
    if octets.len() != Words::COUNT || amounts.len() != addresses.len() {
        return Err(Refusal::WrongSizes);
    }
    // Refused too where the addresses and the room for the numbers differ in count.
    look_up_all(first, long, territory, addresses, codes)?;
    enter_all(octets, amounts, codes);
    Ok(())
}
