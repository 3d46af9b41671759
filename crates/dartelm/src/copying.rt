// Bytes at the start of an array.
ghost use Rattle.std.specs.Prelude.{◌≡◌, ◌≤◌, ◌++◌, length, take, drop};

// Copies bytes to the start of others, and returns their number.
pub fn copy(from: &[u8], to: &mut [u8]) -> usize
    requires { length from.now ≤ length to.old }
    ensures { (result ≡ length from.now) × (to.new ≡ take (length from.now) from.now ++ drop (length from.now) to.old) }
{
    let end = from.len();
    to[..end].copy_from_slice(from);
    end
}
