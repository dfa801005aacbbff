// A flow's places in the store go round.
ghost use Rattle.std.specs.Prelude.{◌≡◌, ◌+◌, ◌%◌, ◌<◌};

// A place of a ring of Q, counted past its end at most once around. Without a division, which the compiler guards against a
// Q of 0: with that jump in the way it copies the fabric (docs/PERFORMANCE.md).
pub fn ring_place(at: usize, depth: usize) -> usize
    requires { at < depth + depth }
    ensures { (result ≡ at % depth) × (result < depth) }
{
    if at < depth { at } else { at - depth }
}
