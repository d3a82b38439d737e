// Strings, which come as lengths and their joined bytes, since C lends them so; and those that are a name and a value by turns. Values (values.rt) have lengths of
// another type, with NULL, and a test at each: one walk for both, with that test for an argument, is no plainer.
ghost use Rattle.std.specs.Prelude.{◌≡◌};
ghost use Rattle.protocol.specs.Encode.{texts_given};
ghost use Rattle.writers.specs.Given as Given;
ghost use Rattle.writers.specs.Given.{is_some};

// The lengths add up to the bytes. Each is taken from the bytes that are left: a sum could pass the largest number.
pub fn texts_given(lengths: &[u32], joined: &[u8]) -> bool
    ensures { result ≡ is_some (texts_given lengths.now joined.now) }
{
    let mut left = joined.len();
    for n in lengths {
        let n = *n as usize;
        if left < n {
            return false;
        }
        left -= n;
    }
    left == 0
}

// Each name has a value, and none is empty.
pub fn named(lengths: &[u32]) -> bool
    ensures { result ≡ Given.named lengths.now }
{
    let mut rest = lengths;
    while let [name, _value, more @ ..] = rest {
        if *name == 0 {
            return false;
        }
        rest = more;
    }
    rest.is_empty()
}
