// Why a call, a record or a text is refused.
#![tactic(auto)]

ghost use Rattle.std.specs.Prelude.{◌≡◌};

/// A reason for a refusal. Its number is what C, a listing and the plain machine show.
#[derive(Clone, Copy, Debug, PartialEq, Eq)]
pub enum Refusal {
    /// A sheet that is empty, over 16,384 bytes, or whose first byte is not 1; a text that is empty or over 8,192 bytes.
    BadInput = 1,
    /// A record past the end, unknown, or of a wrong length.
    BadRecord = 2,
    /// A record after the 1,024th.
    TooManyRecords = 3,
    /// An operand that is not earlier, or an id that is not below the count.
    BadOperand = 4,
    /// An operator, flags, control or depth value that is not listed.
    BadCode = 5,
    /// A number of children that the kind does not take.
    BadChildCount = 6,
    /// A threshold that is a NaN or has the sign bit set.
    BadThreshold = 7,
    /// A setting above 200.
    BadSetting = 8,
    /// A name of 0 or over 32 bytes.
    BadNameLength = 9,
    /// A constant whose bits are a NaN's.
    NotANumber = 10,
    /// A text outside the language.
    OutsideLanguage = 11,
    /// Brackets, minus factors and powers, counted together, nested over 64 deep.
    NestedTooDeep = 12,
    /// A node that has no text, or a symbol without a name of the text's form.
    NoText = 13,
    /// A text over 8,192 bytes, longer than the lent text buffer, or too deep for reading.
    TextTooLong = 14,
    /// A store or name list that is not sound.
    NotSound = 20,
    /// No place for a new node.
    NoNodePlace = 21,
    /// A new node needs a doubling and the lent slots are too few; also a fresh store with under 64.
    NoSlotPlace = 22,
    /// Over 4,096 terms.
    TooManyTerms = 23,
    /// No place for a new name.
    NoNamePlace = 24,
}

impl Refusal {
    ghost use Rattle.refusal.specs.Number.{number_of, NumbersPlace};

    /// The refusal of a new node that has no place in the store, by its number.
    pub fn of_place(number: u64) -> Refusal
        requires { NumbersPlace number }
        ensures { number_of result ≡ number }
    {
        if number == 21 {
            Refusal::NoNodePlace
        } else {
            Refusal::NoSlotPlace
        }
    }

    /// The number of the reason, from 1 to 24.
    pub fn number(self) -> u64
        ensures { result ≡ number_of self }
    {
        self as u64
    }
}
