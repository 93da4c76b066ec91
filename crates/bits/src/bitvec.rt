ghost use Rattle.std.specs.Prelude.{◌≡◌, ◌+ℤ◌, ◌-ℤ◌, ◌*ℤ◌, neg_ℤ, int_le, int_lt};
ghost use Rattle.std.specs.Int.{int_wrap, w64};
ghost use Rattle.bits.specs.Exact.{outside};

// A Bitvec is a 64-bit two's complement number. The arithmetic is modulo 2^64.
#[tactic(auto, using(std::proofs::lemmas::Int::wraps))]
pub fn neg(a: i64) -> i64
    ensures { result ≡ int_wrap w64 (neg_ℤ a) }
{
    a.wrapping_neg()
}

#[tactic(auto, using(std::proofs::lemmas::Int::wraps))]
pub fn add(a: i64, b: i64) -> i64
    ensures { result ≡ int_wrap w64 (a +ℤ b) }
{
    a.wrapping_add(b)
}

#[tactic(auto, using(std::proofs::lemmas::Int::wraps))]
pub fn sub(a: i64, b: i64) -> i64
    ensures { result ≡ int_wrap w64 (a -ℤ b) }
{
    a.wrapping_sub(b)
}

pub fn mul(a: i64, b: i64) -> i64
    ensures { result ≡ int_wrap w64 (a *ℤ b) }
{
    a.wrapping_mul(b)
}

pub fn slt(a: i64, b: i64) -> bool
    ensures { result ≡ int_lt a b }
{
    a < b
}

pub fn sle(a: i64, b: i64) -> bool
    ensures { result ≡ int_le a b }
{
    a <= b
}

// The overflow tests: whether the exact result lies outside the numbers of 64 bits.
pub fn neg_overflows(a: i64) -> bool
    ensures { result ≡ outside (neg_ℤ a) }
{
    a.checked_neg().is_none()
}

pub fn add_overflows(a: i64, b: i64) -> bool
    ensures { result ≡ outside (a +ℤ b) }
{
    a.checked_add(b).is_none()
}

pub fn sub_overflows(a: i64, b: i64) -> bool
    ensures { result ≡ outside (a -ℤ b) }
{
    a.checked_sub(b).is_none()
}

pub fn mul_overflows(a: i64, b: i64) -> bool
    ensures { result ≡ outside (a *ℤ b) }
{
    a.checked_mul(b).is_none()
}
