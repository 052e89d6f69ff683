// Values: the signed 32-bit numbers of a sheet, with their constants, how they stand in bytes and in bits, and the operators on them.
// A result is exact, or an `ArithmeticError` says why there is none. It is worked out at 64 bits, which hold every result of two values,
// and narrowed in one place, `try_from`.
#![tactic(auto)]

ghost use Rattle.std.specs.Prelude.{◌≡◌, ◌+◌, ◌≤◌, pos, length, cond, Ok, Err};
ghost use Rattle.std.proofs.lemmas.List.Edits.{sets};
ghost use Rattle.value.specs.Values.{exactly, sum_of, difference_of, product_of, quotient_of, remainder_of, eq_z, quot, operator_numbered, applied};
ghost use Rattle.value.specs.Values.{truth, equal_of, less_of, at_most_of, is_true, and_of, or_of, not_of};
ghost use Rattle.value.specs.Bytes.{of_bits, bits_of, bytes_of, value_at};
ghost use Rattle.value.specs.declared.ArithmeticError.TheVariants.{DivisorZero};

/// A number from `LEAST` to `GREATEST`.
#[derive(Clone, Copy, Debug, PartialEq, Eq, PartialOrd, Ord)]
pub struct Value {
    pub n: i32,
}

/// Why an operator gives no value. A result out of range is told as the number that it is.
#[derive(Clone, Copy, Debug, PartialEq, Eq)]
pub enum ArithmeticError {
    OutOfRange(i64),
    DivisorZero,
}

/// The operators, in the order of their numbers.
#[derive(Clone, Copy, Debug, PartialEq, Eq)]
pub enum Operator {
    Sum,
    Difference,
    Product,
    Quotient,
    Remainder,
    Equal,
    Less,
    AtMost,
    And,
    Or,
}

/// 1 or 0: what a test gives.
impl From<bool> for Value {
    ghost from_gives = { λ b v. v ≡ truth b };

    #[tactic(auto, unfolding(crate::specs::Values::truth))]
    fn from(b: bool) -> Value {
        if b { Value::TRUE } else { Value::FALSE }
    }
}

/// An exact result, if it is a value.
impl TryFrom<i64> for Value {
    type Error = ArithmeticError;

    ghost try_from_gives = { λ z r. r ≡ exactly z };

    #[tactic(auto, unfolding(crate::specs::Values::exactly))]
    fn try_from(z: i64) -> Result<Value, ArithmeticError> {
        match i32::try_from(z) {
            Ok(n) => Ok(Value { n }),
            Err(_) => Err(ArithmeticError::OutOfRange(z)),
        }
    }
}

impl Value {
    /// The least number and the greatest.
    pub const LEAST: Value = Value { n: i32::MIN };

    pub const GREATEST: Value = Value { n: i32::MAX };

    /// What a test gives.
    pub const FALSE: Value = Value { n: 0 };

    pub const TRUE: Value = Value { n: 1 };

    /// The value of 32 bits, in two's complement.
    #[tactic(auto, unfolding(crate::specs::Bytes::of_bits))]
    pub fn of_bits(u: u32) -> Value
        ensures { result.n ≡ of_bits u }
    {
        Value { n: u.cast_signed() }
    }

    /// The 32 bits of a value.
    #[tactic(auto, unfolding(crate::specs::Bytes::bits_of))]
    pub fn bits(self) -> u32
        ensures { result ≡ bits_of self.n }
    {
        self.n.cast_unsigned()
    }

    /// The value whose four bytes stand at an offset, lowest first.
    #[tactic(auto, unfolding(crate::specs::Bytes::of_bits))]
    pub fn read(bytes: &[u8], at: usize) -> Value
        requires { at + 4 ≤ length bytes.now }
        ensures { result ≡ value_at bytes.now at }
    {
        let bytes = <[u8; 4]>::try_from(&bytes[at..at + 4]).unwrap();
        Value {
            n: i32::from_le_bytes(bytes),
        }
    }

    /// Its four bytes, lowest first.
    pub fn to_bytes(self) -> [u8; 4]
        ensures { result ≡ bytes_of self.n }
    {
        self.n.to_le_bytes()
    }

    /// Writes its four bytes at an offset, lowest first.
    pub fn write(self, out: &mut [u8], at: usize)
        requires { at + 4 ≤ length out.old }
        ensures { out.new ≡ sets out.old at (bytes_of self.n) }
    {
        out[at..at + 4].copy_from_slice(&self.to_bytes());
    }

    // The quotient rounded down: x / y is -x / -y.
    fn quot(self, divisor: Value) -> Result<i64, ArithmeticError>
        ensures { result ≡ cond (eq_z divisor.n (pos 0)) (Err DivisorZero) (Ok (quot self.n divisor.n)) }
    {
        let x = i64::from(self.n);
        let y = i64::from(divisor.n);
        if y == 0 {
            Err(ArithmeticError::DivisorZero)
        } else if y < 0 {
            Ok((-x).div_euclid(-y))
        } else {
            Ok(x.div_euclid(y))
        }
    }

    pub fn sum(self, right: Value) -> Result<Value, ArithmeticError>
        ensures { result ≡ sum_of self right }
    {
        Value::try_from(i64::from(self.n) + i64::from(right.n))
    }

    pub fn difference(self, right: Value) -> Result<Value, ArithmeticError>
        ensures { result ≡ difference_of self right }
    {
        Value::try_from(i64::from(self.n) - i64::from(right.n))
    }

    pub fn product(self, right: Value) -> Result<Value, ArithmeticError>
        ensures { result ≡ product_of self right }
    {
        Value::try_from(i64::from(self.n) * i64::from(right.n))
    }

    #[tactic(auto, unfolding(crate::specs::Values::quotient_of))]
    pub fn quotient(self, divisor: Value) -> Result<Value, ArithmeticError>
        ensures { result ≡ quotient_of self divisor }
    {
        Value::try_from(self.quot(divisor)?)
    }

    #[tactic(auto, unfolding(crate::specs::Values::remainder_of))]
    pub fn remainder(self, divisor: Value) -> Result<Value, ArithmeticError>
        ensures { result ≡ remainder_of self divisor }
    {
        let quotient = self.quot(divisor)?;
        Value::try_from(i64::from(self.n) - quotient * i64::from(divisor.n))
    }

    pub fn equal(self, right: Value) -> Value
        ensures { result ≡ equal_of self right }
    {
        Value::from(self == right)
    }

    pub fn less(self, right: Value) -> Value
        ensures { result ≡ less_of self right }
    {
        Value::from(self < right)
    }

    pub fn at_most(self, right: Value) -> Value
        ensures { result ≡ at_most_of self right }
    {
        Value::from(self <= right)
    }

    pub fn and(self, right: Value) -> Value
        ensures { result ≡ and_of self right }
    {
        Value::from(self.is_true() && right.is_true())
    }

    pub fn or(self, right: Value) -> Value
        ensures { result ≡ or_of self right }
    {
        Value::from(self.is_true() || right.is_true())
    }

    pub fn not(self) -> Value
        ensures { result ≡ not_of self }
    {
        Value::from(!self.is_true())
    }

    /// Any number but 0 is true.
    #[tactic(auto, unfolding(crate::specs::Values::is_true))]
    pub fn is_true(self) -> bool
        ensures { result ≡ is_true self }
    {
        self.n != 0
    }
}

/// A sheet has the numbers 0 to 9; those above are `or` too.
impl From<u8> for Operator {
    ghost from_gives = { λ op operator. operator ≡ operator_numbered op };

    #[tactic(auto, unfolding(crate::specs::Values::operator_numbered))]
    fn from(op: u8) -> Operator {
        match op {
            0 => Operator::Sum,
            1 => Operator::Difference,
            2 => Operator::Product,
            3 => Operator::Quotient,
            4 => Operator::Remainder,
            5 => Operator::Equal,
            6 => Operator::Less,
            7 => Operator::AtMost,
            8 => Operator::And,
            _ => Operator::Or,
        }
    }
}

impl Operator {
    /// What it gives of two values.
    #[tactic(auto, unfolding(crate::specs::Values::applied))]
    pub fn apply(self, a: Value, b: Value) -> Result<Value, ArithmeticError>
        ensures { result ≡ applied self a b }
    {
        match self {
            Operator::Sum => a.sum(b),
            Operator::Difference => a.difference(b),
            Operator::Product => a.product(b),
            Operator::Quotient => a.quotient(b),
            Operator::Remainder => a.remainder(b),
            Operator::Equal => Ok(a.equal(b)),
            Operator::Less => Ok(a.less(b)),
            Operator::AtMost => Ok(a.at_most(b)),
            Operator::And => Ok(a.and(b)),
            Operator::Or => Ok(a.or(b)),
        }
    }
}
