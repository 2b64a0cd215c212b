// The codes of the calls, as specs/Encoding.antt lists them.
ghost use Rattle.std.specs.Prelude.{◌≡◌, ◌≤◌, ◌↔◌, IsOk, IfOk};
ghost use Rattle.encoding.specs.Encoding.{last_code};
ghost use Rattle.encoding.specs.Codes.{code_of};

/// What a call does. Its code is the first word of the call's header.
#[derive(Clone, Copy, Debug, PartialEq, Eq)]
pub enum CallCode {
    Variable = 0,
    Constant = 1,
    Add = 2,
    Sub = 3,
    Mul = 4,
    Div = 5,
    Pow = 6,
    Modulo = 7,
    Neg = 8,
    Operator = 9,
    Function = 10,
    Select = 11,
    IfElse = 12,
    ForLoop = 13,
    Control = 14,
    Simplify = 15,
    Prune = 16,
    PruneBySetting = 17,
    SimplifyStrictly = 18,
    Intern = 19,
    Lookup = 20,
    NameOf = 21,
    Read = 22,
}

/// A word that is no call's code.
#[derive(Clone, Copy, Debug, PartialEq, Eq)]
pub struct UnknownCode;

impl TryFrom<u32> for CallCode {
    type Error = UnknownCode;

    fn try_from(word: u32) -> Result<CallCode, UnknownCode>
        ensures ok { IfOk result (λ code. code_of code ≡ word) }
        ensures listed { IsOk result ↔ (word ≤ last_code) }
    {
        match word {
            0 => Ok(CallCode::Variable),
            1 => Ok(CallCode::Constant),
            2 => Ok(CallCode::Add),
            3 => Ok(CallCode::Sub),
            4 => Ok(CallCode::Mul),
            5 => Ok(CallCode::Div),
            6 => Ok(CallCode::Pow),
            7 => Ok(CallCode::Modulo),
            8 => Ok(CallCode::Neg),
            9 => Ok(CallCode::Operator),
            10 => Ok(CallCode::Function),
            11 => Ok(CallCode::Select),
            12 => Ok(CallCode::IfElse),
            13 => Ok(CallCode::ForLoop),
            14 => Ok(CallCode::Control),
            15 => Ok(CallCode::Simplify),
            16 => Ok(CallCode::Prune),
            17 => Ok(CallCode::PruneBySetting),
            18 => Ok(CallCode::SimplifyStrictly),
            19 => Ok(CallCode::Intern),
            20 => Ok(CallCode::Lookup),
            21 => Ok(CallCode::NameOf),
            22 => Ok(CallCode::Read),
            _ => Err(UnknownCode),
        }
    }
}
