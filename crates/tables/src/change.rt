// A run of cells changed: each cell takes what a rule makes of it, and those that differ are counted.
ghost use Rattle.std.specs.Prelude.{◌≡◌, ℕ, ◌+◌, ◌≤◌};
ghost use Rattle.ground.specs.Lists.{differs};
ghost use Rattle.tables.specs.inner.Ranges.{Within, RunChanged};

use std::ops::Range;

// 1 where the two cells differ, else 0: the conversion, with the name by which contracts call it.
#[tactic(auto, unfolding(ground::specs::Lists::differs))]
pub fn differ(a: u32, b: u32) -> u32
    ensures { result ≡ differs a b }
{
    u32::from(a != b)
}

// Gives each cell of the run what the rule makes of it, and returns how many differ.
pub fn change_run<F: Fn(u32) -> u32>(cells: &mut [u32], run: Range<usize>, rule: F) -> u32
    requires within { Within run.start run.end cells.old }
    requires callable { F.IsAlwaysCallable rule }
    ensures changed { (g : ℕ → ℕ) → ((x y : ℕ) → F.post rule x y → y ≡ g x)
        → RunChanged (λ i. g) run.start run.end cells.old cells.new result }
    ensures few { result + run.start ≤ run.end }
{
    let mut changed = 0;
    for cell in &mut cells[run] {
        let old = *cell;
        let next = rule(old);
        *cell = next;
        changed += differ(old, next);
    }
    changed
}
