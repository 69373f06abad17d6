ghost use Rattle.std.specs.Prelude.{◌≡◌, ℕ, ◌+◌, ◌-◌, ◌*◌, ◌<◌, ◌≤◌, [], ◌∷◌, length};
ghost use Rattle.std.specs.List.Sorted.{IsPermutation};
ghost use Rattle.heap.specs.Heaps.{Heaped, Least};
ghost use Rattle.calendar.specs.Agenda.{before};

use calendar::entry::Entry;

// The last value rises to its place in the heap that the others are.
// Kept as it is: a heap is a lent slice of entries, sifted in place by a place that moves by halves, which no iterator does.
pub(crate) fn sift_up(heap: &mut [Entry])
    requires some { 0 < length heap.old }
    requires heaped { Heaped before heap.old 0 (length heap.old - 1) }
    ensures shuffled { IsPermutation heap.old heap.new }
    ensures heaped { Heaped before heap.new 0 (length heap.new) }
{
    let mut at = heap.len() - 1;
    while at > 0 {
        let parent = (at - 1) / 2;
        if heap[at] >= heap[parent] {
            return;
        }
        heap.swap(parent, at);
        at = parent;
    }
}

// The first value sinks to its place in the heap that the others are.
// Kept as it is: a heap is a lent slice of entries, sifted in place by a place that moves by doubles, which no iterator does.
pub(crate) fn sift_down(heap: &mut [Entry])
    requires heaped { Heaped before heap.old 2 (length heap.old) }
    ensures shuffled { IsPermutation heap.old heap.new }
    ensures heaped { Heaped before heap.new 0 (length heap.new) }
{
    let mut at = 0;
    while at < heap.len() / 2 {
        let child = first_child(heap, at);
        if heap[child] >= heap[at] {
            return;
        }
        heap.swap(at, child);
        at = child;
    }
}

// Of the children of `at`, the one that comes first.
fn first_child(heap: &[Entry], at: usize) -> usize
    requires { at * 2 + 1 < length heap.now }
    ensures child { (at * 2 + 1 ≤ result) × (result ≤ at * 2 + 2) × (result < length heap.now) }
    ensures least { Least before heap.now at result (length heap.now) }
{
    let left = 2 * at + 1;
    let right = left + 1;
    if right < heap.len() && heap[right] < heap[left] {
        right
    } else {
        left
    }
}
