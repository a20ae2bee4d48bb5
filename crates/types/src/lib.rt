// The types that a suffix can name: their names, their codes, and the largest values of those that have values here.
#![tactic(auto)]

ghost use Rattle.std.specs.Prelude.{◌≡◌};
ghost use Rattle.types.specs.Types.{integer_named, integer_coded, integer_code, largest_of, float_named, float_code};

#[derive(Clone, Copy)]
pub enum IntegerType {
    U8,
    U16,
    U32,
    U64,
    U128,
    Usize,
    I8,
    I16,
    I32,
    I64,
    I128,
    Isize,
}

impl IntegerType {
    pub const U8_MAX: u64 = 0xFF;

    pub const U16_MAX: u64 = 0xFFFF;

    pub const U32_MAX: u64 = 0xFFFF_FFFF;

    pub const U64_MAX: u64 = 0xFFFF_FFFF_FFFF_FFFF;

    pub const I8_MAX: u64 = 0x7F;

    pub const I16_MAX: u64 = 0x7FFF;

    pub const I32_MAX: u64 = 0x7FFF_FFFF;

    pub const I64_MAX: u64 = 0x7FFF_FFFF_FFFF_FFFF;

    // The type that a suffix names: litrs's `IntegerType::from_suffix`.
    #[tactic(auto, using(crate::proofs::Names::no_integer), unfolding(crate::specs::Types::integer_named, crate::specs::Types::named_in))]
    pub fn from_suffix(suffix: &[u8]) -> Option<IntegerType>
        ensures value { result ≡ integer_named suffix.now }
        ensures suffix_unchanged { suffix.exit.now ≡ suffix.entry.now }
    {
        match suffix {
            b"u8" => Some(IntegerType::U8),
            b"u16" => Some(IntegerType::U16),
            b"u32" => Some(IntegerType::U32),
            b"u64" => Some(IntegerType::U64),
            b"u128" => Some(IntegerType::U128),
            b"usize" => Some(IntegerType::Usize),
            b"i8" => Some(IntegerType::I8),
            b"i16" => Some(IntegerType::I16),
            b"i32" => Some(IntegerType::I32),
            b"i64" => Some(IntegerType::I64),
            b"i128" => Some(IntegerType::I128),
            b"isize" => Some(IntegerType::Isize),
            _ => None,
        }
    }

    // The type that a code stands for.
    pub fn from_code(code: u64) -> Option<IntegerType>
        ensures { result ≡ integer_coded code }
    {
        match code {
            1 => Some(IntegerType::U8),
            2 => Some(IntegerType::U16),
            3 => Some(IntegerType::U32),
            4 => Some(IntegerType::U64),
            5 => Some(IntegerType::U128),
            6 => Some(IntegerType::Usize),
            7 => Some(IntegerType::I8),
            8 => Some(IntegerType::I16),
            9 => Some(IntegerType::I32),
            10 => Some(IntegerType::I64),
            11 => Some(IntegerType::I128),
            12 => Some(IntegerType::Isize),
            _ => None,
        }
    }

    // The largest value of the type; the 128-bit and pointer-sized types have no values here.
    pub fn largest(self) -> Option<u64>
        ensures { result ≡ largest_of self }
    {
        match self {
            IntegerType::U8 => Some(IntegerType::U8_MAX),
            IntegerType::U16 => Some(IntegerType::U16_MAX),
            IntegerType::U32 => Some(IntegerType::U32_MAX),
            IntegerType::U64 => Some(IntegerType::U64_MAX),
            IntegerType::U128 => None,
            IntegerType::Usize => None,
            IntegerType::I8 => Some(IntegerType::I8_MAX),
            IntegerType::I16 => Some(IntegerType::I16_MAX),
            IntegerType::I32 => Some(IntegerType::I32_MAX),
            IntegerType::I64 => Some(IntegerType::I64_MAX),
            IntegerType::I128 => None,
            IntegerType::Isize => None,
        }
    }

    // The type's code: 1 to 12.
    pub fn code(self) -> u8
        ensures { result ≡ integer_code self }
    {
        match self {
            IntegerType::U8 => 1,
            IntegerType::U16 => 2,
            IntegerType::U32 => 3,
            IntegerType::U64 => 4,
            IntegerType::U128 => 5,
            IntegerType::Usize => 6,
            IntegerType::I8 => 7,
            IntegerType::I16 => 8,
            IntegerType::I32 => 9,
            IntegerType::I64 => 10,
            IntegerType::I128 => 11,
            IntegerType::Isize => 12,
        }
    }
}

#[derive(Clone, Copy)]
pub enum FloatType {
    F32,
    F64,
}

impl FloatType {
    // The type that a suffix names.
    #[tactic(auto, using(crate::proofs::Names::no_float), unfolding(crate::specs::Types::float_named))]
    pub fn from_suffix(suffix: &[u8]) -> Option<FloatType>
        ensures value { result ≡ float_named suffix.now }
        ensures suffix_unchanged { suffix.exit.now ≡ suffix.entry.now }
    {
        match suffix {
            b"f32" => Some(FloatType::F32),
            b"f64" => Some(FloatType::F64),
            _ => None,
        }
    }

    // The type's code: 13 or 14.
    pub fn code(self) -> u8
        ensures { result ≡ float_code self }
    {
        match self {
            FloatType::F32 => 13,
            FloatType::F64 => 14,
        }
    }
}
