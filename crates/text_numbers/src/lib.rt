// Numbers as `yard` reads them: words of bytes to whole numbers and floats.
#![tactic(auto)]

ghost use Rattle.std.specs.Prelude.{◌≡◌};
ghost use Rattle.text_numbers.specs.Numerals.{digit_of, decimal_of, hex_of, numeral_of};

// The value of a digit of either case, or 16 where the byte is no digit.
pub fn digit(c: u8) -> u32
    ensures { result ≡ digit_of c }
{
    if c < 48 {
        return 16;
    }
    if c < 58 {
        return (c - 48) as u32;
    }
    if c < 65 {
        return 16;
    }
    if c < 71 {
        return (c - 55) as u32;
    }
    if c < 97 {
        return 16;
    }
    if c < 103 {
        return (c - 87) as u32;
    }
    16
}

// A whole decimal without sign, at most 1,000,000.
pub fn decimal(w: &[u8]) -> Option<u32>
    ensures { result ≡ decimal_of w.now }
{
    if w.len() == 0 {
        return None;
    }
    let mut n: u32 = 0;
    for i in 0usize..w.len() {
        let d = digit(w[i]);
        if d >= 10 {
            return None;
        }
        n = n * 10 + d;
        if n > 1000000 {
            return None;
        }
    }
    Some(n)
}

// Sixteen hexadecimal digits.
pub fn hexadecimal(w: &[u8]) -> Option<u64>
    ensures { result ≡ hex_of w.now }
{
    if w.len() != 16 {
        return None;
    }
    let mut n: u64 = 0;
    for i in 0usize..w.len() {
        let d = digit(w[i]);
        if d >= 16 {
            return None;
        }
        n = n * 16 + d as u64;
    }
    Some(n)
}

// A number: # and sixteen hexadecimal digits, or a decimal, with - before it if negative.
pub fn number(w: &[u8]) -> Option<f64>
    ensures { result ≡ numeral_of w.now }
{
    if w.len() == 0 {
        return None;
    }
    let c = w[0];
    if c == 35 {
        let b = hexadecimal(&w[1..])?;
        return Some(floats::float_of(b));
    }
    if c == 45 {
        let n = decimal(&w[1..])?;
        if n == 0 {
            return Some(0.0);
        }
        return Some(-(n as f64));
    }
    let n = decimal(w)?;
    Some(n as f64)
}
