// Bytes copied from one slice to another, place by place. The library's copy_from_slice, where the compiler cannot see that the
// slices are apart, becomes a call of memmove, which the archive for C does not ask for.
#![tactic(auto)]

ghost use Rattle.std.specs.Prelude.{◌≡◌, length};

pub fn copy(to: &mut [u8], from: &[u8])
    requires { length to.old ≡ length from.now }
    ensures { to.new ≡ from.now }
{
    for i in 0..from.len() {
        to[i] = from[i];
    }
}
