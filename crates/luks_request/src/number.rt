//! The numbers in the arguments, each with its range.

ghost use Rattle.std.specs.Prelude.{◌≡◌, ◌≤◌, option_map};
ghost use Rattle.std.specs.Char.{is_ascii_digit};
ghost use Rattle.std.specs.List.{list_all};
ghost use Rattle.luks_request.specs.Number.{is_number, number_of, number_within, if_within};

/// A number of stripes: 1 to 4000.
#[derive(Clone, Copy, PartialEq, Eq, Debug)]
pub struct StripeCount {
    /// The number of stripes.
    pub count: usize,
    ghost in_range: { (1 ≤ count) × (count ≤ 4000) },
}

impl StripeCount {
    /// This number of stripes, or `None` if it is out of range.
    pub fn new(number: u64) -> Option<StripeCount>
        ensures { option_map (λ stripes. stripes.count) result ≡ if_within 1 4000 number }
    {
        if 1 <= number && number <= 4000 {
            Some(StripeCount {
                count: number as usize,
            })
        } else {
            None
        }
    }

    /// The number of stripes.
    pub fn get(self) -> usize
        ensures { result ≡ self.count }
    {
        self.count
    }

    /// The number of stripes in a text of 1 to 10 digits, or `None` for any other text and if the
    /// number is out of range.
    pub fn read(text: &str) -> Option<StripeCount>
        ensures { option_map (λ stripes. stripes.count) result ≡ number_within 1 4000 text.now }
    {
        StripeCount::new(number(text)?)
    }
}

/// The length of a key in bytes: 1 to 512.
#[derive(Clone, Copy, PartialEq, Eq, Debug)]
pub struct KeyBytes {
    /// The number of bytes.
    pub bytes: usize,
    ghost in_range: { (1 ≤ bytes) × (bytes ≤ 512) },
}

impl KeyBytes {
    /// This number of bytes, or `None` if it is out of range.
    pub fn new(number: u64) -> Option<KeyBytes>
        ensures { option_map (λ key. key.bytes) result ≡ if_within 1 512 number }
    {
        if 1 <= number && number <= 512 {
            Some(KeyBytes {
                bytes: number as usize,
            })
        } else {
            None
        }
    }

    /// The number of bytes.
    pub fn get(self) -> usize
        ensures { result ≡ self.bytes }
    {
        self.bytes
    }

    /// The number of bytes in a text of 1 to 10 digits, or `None` for any other text and if the
    /// number is out of range.
    pub fn read(text: &str) -> Option<KeyBytes>
        ensures { option_map (λ key. key.bytes) result ≡ number_within 1 512 text.now }
    {
        KeyBytes::new(number(text)?)
    }
}

/// The number of a key slot, 0 to 31, in a text of 1 to 10 digits, or `None` for any other text and
/// if the number is out of range.
pub fn slot_number(text: &str) -> Option<u8>
    ensures { result ≡ number_within 0 31 text.now }
{
    let number = number(text)?;
    if number <= 31 {
        Some(number as u8)
    } else {
        None
    }
}

/// A limit on iterations, 1 to 4294967295, in a text of 1 to 10 digits, or `None` for any other
/// text and if the limit is out of range.
pub fn iteration_limit(text: &str) -> Option<u32>
    ensures { result ≡ number_within 1 4294967295 text.now }
{
    let number = number(text)?;
    if 1 <= number && number <= 4294967295 {
        Some(number as u32)
    } else {
        None
    }
}

// Whether each byte of the text is an ASCII digit.
fn is_all_digits(text: &str) -> bool
    ensures { result ≡ list_all is_ascii_digit text.now }
{
    text.bytes().all(|byte| byte.is_ascii_digit())
}

// Whether the text is 1 to 10 ASCII digits.
fn is_number(text: &str) -> bool
    ensures { result ≡ is_number text.now }
{
    0 < text.len() && text.len() <= 10 && is_all_digits(text)
}

// The number in a text of 1 to 10 ASCII digits, or `None` for any other text.
fn number(text: &str) -> Option<u64>
    ensures { result ≡ number_of text.now }
{
    if is_number(text) {
        text.parse().ok()
    } else {
        None
    }
}
