// Values, which come as lengths (-1 for NULL) and their joined bytes.
ghost use Rattle.std.specs.Prelude.{◌≡◌};
ghost use Rattle.protocol.specs.Encode.{values_given};
ghost use Rattle.writers.specs.Given.{is_some, size_of};

// How many bytes a value of the length n has: none where n is -1, for NULL.
pub fn size_of(n: i32) -> usize
    ensures { result ≡ size_of n }
{
    usize::try_from(n).unwrap_or(0)
}

// No length is below -1, and they add up to the bytes. Each is taken from the bytes that are left: a sum could pass the largest number.
pub fn values_given(lengths: &[i32], joined: &[u8]) -> bool
    ensures { result ≡ is_some (values_given lengths.now joined.now) }
{
    let mut left = joined.len();
    for n in lengths {
        if *n < -1 {
            return false;
        }
        let size = size_of(*n);
        if left < size {
            return false;
        }
        left -= size;
    }
    left == 0
}
