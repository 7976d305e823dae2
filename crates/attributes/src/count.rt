// How many attributes there are.
ghost use Rattle.std.specs.Prelude.{◌≡◌, ◌^◌, ◌<◌, ◌≤◌, MatchResult};

// There are at most this many attributes.
pub const MOST_ATTRIBUTES: u64 = 12;

// The number of attributes of a context.
#[derive(Clone, Copy, PartialEq, Eq, Debug)]
pub struct AttributeCount {
    pub value: u8,
    pub ghost few: { value ≤ 12 },
}

// A number of attributes that no context has.
#[derive(Clone, Copy, PartialEq, Eq, Debug)]
pub struct TooManyAttributes;

impl TryFrom<u64> for AttributeCount {
    type Error = TooManyAttributes;

    ghost try_from_gives = { λ value r. MatchResult r (λ n. n.value ≡ value) (λ _. 12 < value) };

    fn try_from(value: u64) -> Result<AttributeCount, TooManyAttributes> {
        if value > MOST_ATTRIBUTES {
            return Err(TooManyAttributes);
        }
        Ok(AttributeCount { value: value as u8 })
    }
}

impl AttributeCount {
    // Its name is that of the standard library's counts that cannot be 0.
    pub fn get(self) -> u8
        ensures value { result ≡ self.value }
        ensures few { result ≤ 12 }
    {
        self.value
    }

    // The numbers below this stand for sets of these attributes.
    pub fn limit(self) -> u64
        ensures { result ≡ 2 ^ self.value }
    {
        1u64 << self.value
    }
}
