// The tree of a tournament over n places: nodes n to 2n - 1 are its leaves, one for each place, and each node k from 1
// to n - 1 holds the better of nodes 2k and 2k + 1. Node 0 stands for nothing.
ghost use Rattle.std.specs.Prelude.{◌≡◌, ◌≢◌, ◌<◌, ◌≤◌, ◌+◌, ◌*◌, ℕ, length, slice_index, slice_set};
ghost use Rattle.picker.specs.Greatest.{greatest_value, greatest_place};
ghost use Rattle.picker.specs.Shapes.{at_node, HoldsBetter, IsTree, leaf_values};

use crate::contender::{Contender, better};

// Makes the nodes the tree of these values.
pub fn fill(nodes: &mut [Contender], values: &[u64])
    requires some { 1 ≤ length values.now }
    requires count { length nodes.old ≡ 2 * length values.now }
    ensures tree { IsTree (length values.now) nodes.new }
    ensures values { leaf_values (length values.now) nodes.new ≡ values.now }
{
    seed(nodes, values);
    play(nodes, values.len());
}

// Gives a place of the tree another value.
pub fn change(nodes: &mut [Contender], n: usize, place: usize, value: u64)
    requires tree { IsTree n nodes.old }
    requires inside { place < n }
    ensures tree { IsTree n nodes.new }
    ensures values { leaf_values n nodes.new ≡ slice_set (leaf_values n nodes.old) place value }
{
    nodes[n + place] = Contender { value, place };
    replay(nodes, n, (n + place) / 2);
}

// The first place of the greatest value, with that value.
pub fn best(nodes: &[Contender], n: usize) -> Contender
    requires { IsTree n nodes.now }
    ensures place { result.place ≡ greatest_place (leaf_values n nodes.now) }
    ensures value { result.value ≡ greatest_value (leaf_values n nodes.now) }
    ensures inside { result.place < n }
    ensures at { slice_index (leaf_values n nodes.now) result.place ≡ result.value }
    ensures most { (k : ℕ) → k < n → slice_index (leaf_values n nodes.now) k ≤ result.value }
{
    nodes[1]
}

// Puts each place with its value on its leaf.
fn seed(nodes: &mut [Contender], values: &[u64])
    requires { length nodes.old ≡ 2 * length values.now }
    ensures values { (i : ℕ) → i < length values.now → (at_node nodes.new (length values.now + i)).value ≡ slice_index values.now i }
    ensures places { (i : ℕ) → i < length values.now → (at_node nodes.new (length values.now + i)).place ≡ i }
{
    let n = values.len();
    for (place, value) in values.iter().enumerate() {
        nodes[n + place] = Contender {
            value: *value,
            place,
        };
    }
}

// Plays every game, from the last to the final.
fn play(nodes: &mut [Contender], n: usize)
    requires { length nodes.old ≡ 2 * n }
    ensures inner { (k : ℕ) → 1 ≤ k → k < n → HoldsBetter nodes.new k }
    ensures leaves { (k : ℕ) → n ≤ k → at_node nodes.new k ≡ at_node nodes.old k }
{
    for node in (1..n).rev() {
        nodes[node] = better(nodes[2 * node], nodes[2 * node + 1]);
    }
}

// Plays the games from one node up, as far as a winner changes: only that node may not hold the better of its children.
fn replay(nodes: &mut [Contender], n: usize, from: usize)
    requires count { length nodes.old ≡ 2 * n }
    requires node { from < n }
    requires inner { (k : ℕ) → 1 ≤ k → k < n → k ≢ from → HoldsBetter nodes.old k }
    ensures inner { (k : ℕ) → 1 ≤ k → k < n → HoldsBetter nodes.new k }
    ensures leaves { (k : ℕ) → n ≤ k → at_node nodes.new k ≡ at_node nodes.old k }
{
    let mut node = from;
    while node > 0 {
        let winner = better(nodes[2 * node], nodes[2 * node + 1]);
        if winner == nodes[node] {
            return;
        }
        nodes[node] = winner;
        node /= 2;
    }
}
