// Lists of rates.
ghost use Rattle.std.specs.Prelude.{◌≡◌, length};

// Number by number: of two lists that are lent, the library's `copy_from_slice` becomes a call of `memmove`, and the archive for C
// needs nothing but `memcpy` and `memset` (include/gambyre.h).
pub fn copy(from: &[u16], to: &mut [u16])
    requires { length to.old ≡ length from.now }
    ensures { to.new ≡ from.now }
{
    for (p, number) in to.iter_mut().enumerate() {
        *number = from[p];
    }
}
