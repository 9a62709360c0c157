// Little-endian fields of a record. Bytes past the end are read as 0, so nothing is asked of the caller.
ghost use Rattle.std.specs.Prelude.{◌≡◌};
ghost use Rattle.octets.specs.Bytes.{word, bytes_at, time_at, flag_at};

// N bytes: a wallet, an investor id, the bytes of a number.
pub fn bytes_at<const N: usize>(rec: &[u8], at: usize) -> [u8; N]
    ensures { result ≡ bytes_at N rec.now at }
{
    let past = rec.get(at..).unwrap_or(&[]);
    if let Some(bytes) = past.first_chunk() {
        return *bytes;
    }
    let mut bytes = [0; N];
    bytes[..past.len()].copy_from_slice(past);
    bytes
}

pub fn u8_at(rec: &[u8], at: usize) -> u8
    ensures { result ≡ word 1 rec.now at }
{
    rec.get(at).copied().unwrap_or(0)
}

pub fn u16_at(rec: &[u8], at: usize) -> u16
    ensures { result ≡ word 2 rec.now at }
{
    u16::from_le_bytes(bytes_at(rec, at))
}

pub fn u32_at(rec: &[u8], at: usize) -> u32
    ensures { result ≡ word 4 rec.now at }
{
    u32::from_le_bytes(bytes_at(rec, at))
}

pub fn u64_at(rec: &[u8], at: usize) -> u64
    ensures { result ≡ word 8 rec.now at }
{
    u64::from_le_bytes(bytes_at(rec, at))
}

// Eight bytes as a signed number, in two's complement.
pub fn time_at(rec: &[u8], at: usize) -> i64
    ensures { result ≡ time_at rec.now at }
{
    u64_at(rec, at).cast_signed()
}

pub fn flag_at(rec: &[u8], at: usize) -> bool
    ensures { result ≡ flag_at rec.now at }
{
    u8_at(rec, at) == 1
}
