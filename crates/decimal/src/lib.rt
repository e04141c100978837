// A number as text: its decimal digits, put into a lent buffer.
#![tactic(auto)]

ghost use Rattle.std.specs.Prelude.{[], ◌∷◌, ◌≡◌, length, ◌%◌, ◌<◌};
ghost use Rattle.writer.specs.Buffer.{Room, Put};
ghost use Rattle.decimal.specs.Decimal.{digit, decimal};

// How many digits a number has.
pub fn places(n: u64) -> usize
    ensures { result ≡ length (decimal n) }
{
    let mut rest = n;
    for k in 1..20 {
        if rest < 10 {
            return k;
        }
        rest /= 10;
    }
    20
}

// The last digit of a number.
fn last_digit(n: u64) -> u8
    ensures { result ≡ digit (n % 10) }
{
    48 + (n % 10) as u8
}

// A number's digits, the last one first.
pub fn put_number(buf: &mut [u8], at: usize, n: u64) -> usize
    requires { Room buf.old at (decimal n) }
    ensures { Put buf.old at buf.new result (decimal n) }
{
    let end = at + places(n);
    let mut rest = n;
    for k in (at..end).rev() {
        buf[k] = last_digit(rest);
        rest /= 10;
    }
    end
}

pub fn put_byte(buf: &mut [u8], at: usize, b: u8) -> usize
    requires { at < length buf.old }
    ensures { Put buf.old at buf.new result (b ∷ []) }
{
    buf[at] = b;
    at + 1
}
