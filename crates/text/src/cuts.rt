// A cut of bytes at the first of a given byte.
ghost use Rattle.std.specs.Prelude.{◌≡◌, option_copied};
ghost use Rattle.text.specs.Cuts.{before, after};

// The bytes before the first `at`, and those after it if there is one.
pub fn cut(bytes: &[u8], at: u8) -> (&[u8], Option<&[u8]>)
    ensures front { result.0.now ≡ before at bytes.now }
    ensures back { option_copied result.1 ≡ after at bytes.now }
{
    match bytes.iter().position(|b| *b == at) {
        Some(i) => (&bytes[..i], Some(&bytes[i + 1..])),
        None => (bytes, None),
    }
}
