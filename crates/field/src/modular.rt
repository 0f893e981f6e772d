// Arithmetic modulo p, with no integer wider than 64 bits.
ghost use Rattle.std.specs.Prelude.{◌≡◌, ℕ, ◌+◌, ◌*◌, ◌%◌, ◌^◌, ◌<◌, if◌then◌else◌};
ghost use Rattle.field.specs.Field.{p, add_f, sub_f, mul_f};

use crate::P;
use std::marker::Model;
use std::ops::{Add, Mul, Sub};

// Numbers of 64 bits are two digits to this base.
const BASE: u64 = 0x1_0000_0000;

const P_HI: u64 = P / BASE;

const P_LO: u64 = P % BASE;

// An element: a number below p.
#[derive(Clone, Copy)]
pub struct Felt {
    pub value: u64,
}

impl Model for Felt {
    ghost Value = { ℕ };

    ghost view = { λ a. a.value };

    ghost invariant = { λ a. a.value < p };

    ghost inverse = { λ n. record { value = n } };
}

impl Felt {
    // Each is a less some number, which is chosen first: so put, compilers make no branch of the choice, at which a
    // processor would often guess wrong.
    pub(crate) fn add_or_sub(self, less: bool, rhs: Felt) -> Felt
        ensures { result ≡ (if less then sub_f self rhs else add_f self rhs) }
    {
        let (a, b) = (self.value, rhs.value);
        let t = if less { b } else { P - b };
        let value = if t <= a { a - t } else { a + (P - t) };
        Felt { value }
    }

    // A turn of a long division by p, of which only the remainder is kept: the digit is brought down beside the
    // remainder so far. That remainder divided by the leading digit of p is the next digit of the quotient, which is
    // one too large where its product with the other digit of p cannot be taken off. (The difference then adds p.)
    fn with_digit(self, digit: u64) -> Felt
        requires { digit < 2 ^ 32 }
        ensures { result ≡ (self * 2 ^ 32 + digit) % p }
    {
        let (quotient, rest) = (self.value / P_HI, self.value % P_HI);
        let (brought, taken) = (rest * BASE + digit, quotient * P_LO);
        Felt { value: brought } - Felt { value: taken }
    }
}

impl Add for Felt {
    type Output = Felt;

    ghost add_gives = { λ a b r. r ≡ add_f a b };

    fn add(self, rhs: Felt) -> Felt {
        let (a, b) = (self.value, rhs.value);
        let t = P - b;
        let value = if a < t { a + b } else { a - t };
        Felt { value }
    }
}

impl Sub for Felt {
    type Output = Felt;

    ghost sub_gives = { λ a b r. r ≡ sub_f a b };

    fn sub(self, rhs: Felt) -> Felt {
        let (a, b) = (self.value, rhs.value);
        let value = if b <= a { a - b } else { a + (P - b) };
        Felt { value }
    }
}

impl Mul for Felt {
    type Output = Felt;

    ghost mul_gives = { λ a b r. r ≡ mul_f a b };

    fn mul(self, rhs: Felt) -> Felt {
        let w = product(self.value, rhs.value);
        reduce(w.hi, w.lo)
    }
}

// a * b + c * d: one remainder of both products. What the sum of their higher cells has over p is taken off,
// since p * 2^64 is a multiple of p.
pub fn sum_of_products(a: Felt, b: Felt, c: Felt, d: Felt) -> Felt
    ensures { result ≡ (a * b + c * d) % p }
{
    let w = product(a.value, b.value);
    let x = product(c.value, d.value);
    let sum = plus(Felt { value: w.hi } + Felt { value: x.hi }, w.lo, x.lo);
    reduce(sum.hi, sum.lo)
}

// hi * 2^64 + lo.
#[derive(Drop)]
struct Wide {
    hi: u64,
    lo: u64,
}

// Each half by its own columns: so put, compilers see one multiplication of the processor in it.
fn product(a: u64, b: u64) -> Wide
    ensures { result.hi * 2 ^ 64 + result.lo ≡ a * b }
{
    let a0 = a % BASE;
    let a1 = a / BASE;
    let b0 = b % BASE;
    let b1 = b / BASE;
    let w = a0 * b0;
    let x = a1 * b0;
    let y = a0 * b1;
    let t = x + w / BASE;
    let m = y + t % BASE;
    Wide {
        hi: a1 * b1 + t / BASE + m / BASE,
        lo: (x % BASE + y % BASE + w / BASE) % BASE * BASE + w % BASE,
    }
}

// hi * 2^64 + a + b.
fn plus(hi: Felt, a: u64, b: u64) -> Wide
    ensures { result.hi * 2 ^ 64 + result.lo ≡ hi * 2 ^ 64 + a + b }
{
    let lo = std::num::wrapping_add_u64(a, b);
    Wide {
        hi: if lo < a { hi.value + 1 } else { hi.value },
        lo,
    }
}

// Long division by p: each of the two digits of lo is brought down.
fn reduce(hi: u64, lo: u64) -> Felt
    ensures { result ≡ (hi * 2 ^ 64 + lo) % p }
{
    let r = Felt { value: hi % P };
    r.with_digit(lo / BASE).with_digit(lo % BASE)
}
