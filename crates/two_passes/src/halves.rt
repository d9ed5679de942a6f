// The two halves of a pair. Parts 1 and 3 of the layout are single places; in parts 2 and 4 each pair
// has two places, one after the other. The functions here are called with the shape of an admitted code
// and an index of it; that of crate places works the shape out again.
ghost use Rattle.std.specs.Prelude.{◌≡◌, ℕ, ◌+◌, ◌-◌, ◌*◌, ◌/◌, ◌%◌, ◌^◌, ◌<◌, ◌≤◌};
ghost use Rattle.group_theory.specs.Group.{moduli};
ghost use Rattle.layout_theory.specs.Layout.{slots};
ghost use Rattle.layout_theory.specs.Calls.{shape_for};
ghost use Rattle.words_theory.specs.Halves.{other_at};

use parameters::Shape;

// The other index of a pair, where pairs begin at the index `from`.
fn other_from(from: usize, i: usize) -> usize
    requires { (from ≤ i) × (i < 2 ^ 32) }
    ensures { result ≡ from + (2 * ((i - from) / 2) + (1 - (i - from) % 2)) }
{
    let k = i - from;
    from + (2 * (k / 2) + (1 - k % 2))
}

// The index of the other half of a pair, for an index below n; that of a single is its own.
pub(crate) fn other_index(h: Shape, i: usize) -> usize
    requires { ((t : ℕ) × (r : ℕ) × (h ≡ shape_for t r)) × (i < h.places) }
    ensures { result ≡ other_at (slots (moduli h.a h.b)) i }
{
    let part = h.binary as usize - h.a;
    let message = h.message as usize;
    if i < part {
        return i;
    }
    if i < message {
        return other_from(part, i);
    }
    if i < message + h.a {
        return i;
    }
    other_from(message + h.a, i)
}
