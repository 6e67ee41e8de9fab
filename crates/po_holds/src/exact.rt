// Sums of products of any size, by digits.
ghost use Rattle.std.specs.Prelude.{ℕ, ℤ, ◌≡◌, ◌≤◌, ◌+◌, ◌↔◌, ◌<ℤ◌, ◌+ℤ◌, ◌*ℤ◌, ◌^◌, pos, IsTrue, length};
ghost use Rattle.std.specs.Int.{int_shr};
ghost use Rattle.po_holds.specs.Exact.{AreAfter, AreDigits, IsDigit, IsUpTo, number, total, whole};

/// 2^48, which leaves room for sums of many products of two digits.
const BASE: i128 = 281_474_976_710_656;

/// A number as digits to the base 2^48, of which only the highest may be negative.
#[derive(Clone, Copy, Debug)]
struct Digits {
    low: i128,
    middle: i128,
    high: i128,
}

/// A number to the base 2^48, lowest first, in digits of any size and sign.
#[derive(Clone, Copy, Debug)]
struct Exact {
    a: i128,
    b: i128,
    c: i128,
    d: i128,
    e: i128,
}

fn digits_of(x: &i128) -> Digits
    ensures value { number result ≡ x.now }
    ensures digits { AreDigits result }
{
    let rest = *x >> 48;
    let high = rest >> 48;
    Digits {
        low: *x - rest * BASE,
        middle: rest - high * BASE,
        high,
    }
}

fn product(x: &i128, y: &i128) -> i128
    requires x { IsDigit x.now }
    requires y { IsDigit y.now }
    ensures value { result ≡ x.now *ℤ y.now }
    ensures small { IsUpTo (2 ^ 96) result }
{
    *x * *y
}

/// The number with a product added.
fn plus(s: &Exact, x: &Digits, y: &Digits) -> Exact
    requires few { AreAfter 16 s.now }
    requires x { AreDigits x.now }
    requires y { AreDigits y.now }
    ensures sum { whole result ≡ whole s.now +ℤ number x.now *ℤ number y.now }
    ensures after { (n : ℕ) → AreAfter n s.now → AreAfter (n + 1) result }
{
    let c = product(&x.low, &y.high) + product(&x.middle, &y.middle);
    Exact {
        a: s.a + product(&x.low, &y.low),
        b: s.b + (product(&x.low, &y.middle) + product(&x.middle, &y.low)),
        c: s.c + (c + product(&x.high, &y.low)),
        d: s.d + (product(&x.middle, &y.high) + product(&x.high, &y.middle)),
        e: s.e + product(&x.high, &y.high),
    }
}

/// A digit, with what the one below it carries.
fn carried(below: &i128, digit: &i128) -> i128
    requires { IsUpTo (2 ^ 120) digit.now }
    ensures { result ≡ digit.now +ℤ int_shr below.now 48 }
{
    *digit + (*below >> 48)
}

fn is_below_zero(s: &Exact) -> bool
    requires { AreAfter 16 s.now }
    ensures { IsTrue result ↔ (whole s.now <ℤ pos 0) }
{
    let b = carried(&s.a, &s.b);
    let c = carried(&b, &s.c);
    let d = carried(&c, &s.d);
    carried(&d, &s.e) < 0
}

/// Whether the sum of these products is negative, at most 16 of numbers of any size. In time linear in how many they are.
pub(crate) fn is_negative(products: &[(i128, i128)]) -> bool
    requires { length products.now ≤ 16 }
    ensures { IsTrue result ↔ (total products.now <ℤ pos 0) }
{
    let mut sum = Exact {
        a: 0,
        b: 0,
        c: 0,
        d: 0,
        e: 0,
    };
    let mut left = products.len();
    while 0 < left {
        left -= 1;
        let (x, y) = products[left];
        sum = plus(&sum, &digits_of(&x), &digits_of(&y));
    }
    is_below_zero(&sum)
}
