// The live words, as a slice of the lent ones.
ghost use Rattle.rules.specs.inner.Places.{Ordered};

// Rules in ascending order of (address, length), each prefix at most once: the lent words up to the first 0, of words that have their form.
#[derive(Clone, Copy)]
pub struct Live<'a> {
    pub words: &'a [u64],
    ghost ordered: { Ordered words.now },
}
