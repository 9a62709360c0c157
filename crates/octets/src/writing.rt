// Texts and numbers in base ten, written into bytes that are lent. Where one does not fit, the bytes are left as they were, so nothing is asked of
// the caller.
ghost use Rattle.std.specs.Prelude.{◌≡◌, [], ◌∷◌, ◌+◌, ◌/◌, ◌%◌, ◌<◌, ◌≤◌, length};
ghost use Rattle.octets.specs.Decimal.{decimal, max_digits};
ghost use Rattle.octets.specs.Writing.{Writes, PutAt};
ghost use Rattle.octets.specs.Puts.{Puts};

use refusals::Refusal;

// The most digits of a number of 64 bits.
pub const MAX_DIGITS: usize = 20;

// A text at the start of out, and its length; where it is longer than out, 27, and out is left as it was.
pub fn put_text(out: &mut [u8], text: &[u8]) -> Result<usize, Refusal>
    ensures { Writes text.now result out.old out.new }
{
    let len = text.len();
    let room = out.len();
    if room < len {
        return Err(Refusal::OutputTooSmall);
    }
    out[..len].copy_from_slice(text);
    Ok(len)
}

// The bytes of a text at a place, and the place after them; where they do not fit, out is left as it was, and the place is the same.
pub fn put_bytes(out: &mut [u8], at: usize, bytes: &[u8]) -> usize
    ensures { PutAt bytes.now at result out.old out.new }
{
    let len = bytes.len();
    if len <= out.len() && at <= out.len() - len {
        out[at..at + len].copy_from_slice(bytes);
        return at + len;
    }
    at
}

// x in base ten, likewise; MAX_DIGITS bytes are always enough. Where there are fewer it goes by way of a buffer.
pub fn put_dec(out: &mut [u8], at: usize, x: u64) -> usize
    ensures { PutAt (decimal x) at result out.old out.new × (length (decimal x) ≤ max_digits) }
{
    if x < 10 {
        return put_digit(out, at, x);
    }
    if MAX_DIGITS <= out.len() && at <= out.len() - MAX_DIGITS {
        return put_digits(out, at, x);
    }
    let mut text = [0u8; MAX_DIGITS];
    let len = put_digits(&mut text, 0, x);
    put_bytes(out, at, &text[..len])
}

// A number of one digit.
fn put_digit(out: &mut [u8], at: usize, x: u64) -> usize
    requires { x < 10 }
    ensures { PutAt (decimal x) at result out.old out.new }
{
    if at < out.len() {
        out[at] = digit(x);
        return at + 1;
    }
    at
}

// The digits of x, where any number fits: the last two after those of its hundredth.
fn put_digits(out: &mut [u8], at: usize, x: u64) -> usize
    requires { at + max_digits ≤ length out.old }
    ensures { Puts (decimal x) at result out.old out.new × (result ≤ at + max_digits) }
{
    if x < 10 {
        out[at] = digit(x);
        return at + 1;
    }
    if x < 100 {
        return put_two(out, at, x);
    }
    let k = put_digits(out, at, x / 100);
    put_two(out, k, x)
}

// The last two digits of x.
fn put_two(out: &mut [u8], at: usize, x: u64) -> usize
    requires { at + 2 ≤ length out.old }
    ensures { Puts ((48 + x / 10 % 10) ∷ (48 + x % 10) ∷ []) at result out.old out.new }
{
    out[at] = digit(x / 10);
    out[at + 1] = digit(x);
    at + 2
}

// The last digit of x.
fn digit(x: u64) -> u8
    ensures { result ≡ 48 + x % 10 }
{
    b'0' + (x % 10) as u8
}
