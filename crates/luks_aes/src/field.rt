//! The field of 256 elements in which AES computes (FIPS 197, section 4).

ghost use Rattle.std.specs.Prelude.{◌≡◌};
ghost use Rattle.luks_aes.specs.Field.{times_x, power_of_x};

/// `b` times x.
pub fn times_x(b: u8) -> u8
    ensures { result ≡ times_x b }
{
    if b < 0x80 { b << 1 } else { (b << 1) ^ 0x1b }
}

/// x to the power `n`.
#[tactic(auto, unfolding(crate::specs::Field::power_of_x))]
pub fn power_of_x(n: usize) -> u8
    ensures { result ≡ power_of_x n }
{
    let mut power = 1;
    for _ in 0..n {
        power = times_x(power);
    }
    power
}
