// Numbers as text, into lent bytes.
ghost use Rattle.std.specs.Prelude.{◌+◌, ◌≤◌, ◌≡◌, [], ◌∷◌, ◌++◌, length, take};
ghost use Rattle.rights_listing.specs.Text.{numeral};

// Puts bytes at place `at` and after: where they end.
fn copy(out: &mut [u8], at: usize, bytes: &[u8]) -> usize
    requires { at + length bytes.now ≤ length out.old }
    ensures { (result ≡ at + length bytes.now)
        × (take result out.new ≡ take at out.old ++ bytes.now) }
{
    let past = at + bytes.len();
    out[at..past].copy_from_slice(bytes);
    past
}

// Puts a number in decimal at place `at`, and a byte that ends it: where they end.
pub fn write_number(out: &mut [u8], at: usize, n: u32, end: u8) -> usize
    requires { at + 11 ≤ length out.old }
    ensures { (result ≤ at + 11)
        × (take result out.new ≡ take at out.old ++ (numeral n ++ end ∷ [])) }
{
    let mut digits = [0u8; 20];
    let k = io::decimal(u64::from(n), &mut digits);
    let past = copy(out, at, &digits[..k]);
    out[past] = end;
    past + 1
}
