// One copy of items: by a loop, so that the C library asks its caller for `memcpy` and `memset` alone. std's copy asks for `memmove` too.
#![tactic(auto)]

ghost use Rattle.std.specs.Prelude.{◌≡◌, length};

// Copies some items over as many others.
pub fn copy<T: Copy>(from: &[T], to: &mut [T])
    requires { length from.now ≡ length to.old }
    ensures { to.new ≡ from.now }
{
    for (at, item) in from.iter().enumerate() {
        to[at] = *item;
    }
}
