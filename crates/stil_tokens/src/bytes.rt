//! The kinds of bytes of a STIL text.
ghost use Rattle.std.specs.Prelude.{◌≡◌, ◌≤◌, ◌+◌, length, drop};
ghost use Rattle.std.specs.List.{prefix_len};
ghost use Rattle.stil_tokens.specs.StilTokens.{is_blank, is_quote, other_mark, is_mark, is_run};

use lane_kernels::any_byte_outside;

/// Whether the byte is a space, a tab, a line feed or a carriage return.
#[inline(always)]
pub fn is_blank(b: u8) -> bool
    ensures value { result ≡ is_blank b }
{
    b == b' ' || b == b'\t' || b == b'\n' || b == b'\r'
}

/// Whether the byte is a quote, `"` or `'`.
#[inline(always)]
pub fn is_quote(b: u8) -> bool
    ensures value { result ≡ is_quote b }
{
    b == b'"' || b == b'\''
}

#[inline(always)]
fn other_mark(b: u8) -> bool
    ensures value { result ≡ other_mark b }
{
    b == b'=' || b == b':' || b == b'!'
}

/// Whether the byte is one of the marks `{ } ; = : !`.
#[inline(always)]
pub fn is_mark(b: u8) -> bool
    ensures value { result ≡ is_mark b }
{
    b == b'{' || (b == b'}' || (b == b';' || other_mark(b)))
}

// 1 at a byte of a run
#[rattlefmt::skip]
static RUNS: [u8; 256] = [
    1, 1, 1, 1, 1, 1, 1, 1, 1, 0, 0, 1, 1, 0, 1, 1,
    1, 1, 1, 1, 1, 1, 1, 1, 1, 1, 1, 1, 1, 1, 1, 1,
    0, 0, 0, 1, 1, 1, 1, 0, 1, 1, 1, 1, 1, 1, 1, 1,
    1, 1, 1, 1, 1, 1, 1, 1, 1, 1, 0, 0, 1, 0, 1, 1,
    1, 1, 1, 1, 1, 1, 1, 1, 1, 1, 1, 1, 1, 1, 1, 1,
    1, 1, 1, 1, 1, 1, 1, 1, 1, 1, 1, 1, 1, 1, 1, 1,
    1, 1, 1, 1, 1, 1, 1, 1, 1, 1, 1, 1, 1, 1, 1, 1,
    1, 1, 1, 1, 1, 1, 1, 1, 1, 1, 1, 0, 1, 0, 1, 1,
    1, 1, 1, 1, 1, 1, 1, 1, 1, 1, 1, 1, 1, 1, 1, 1,
    1, 1, 1, 1, 1, 1, 1, 1, 1, 1, 1, 1, 1, 1, 1, 1,
    1, 1, 1, 1, 1, 1, 1, 1, 1, 1, 1, 1, 1, 1, 1, 1,
    1, 1, 1, 1, 1, 1, 1, 1, 1, 1, 1, 1, 1, 1, 1, 1,
    1, 1, 1, 1, 1, 1, 1, 1, 1, 1, 1, 1, 1, 1, 1, 1,
    1, 1, 1, 1, 1, 1, 1, 1, 1, 1, 1, 1, 1, 1, 1, 1,
    1, 1, 1, 1, 1, 1, 1, 1, 1, 1, 1, 1, 1, 1, 1, 1,
    1, 1, 1, 1, 1, 1, 1, 1, 1, 1, 1, 1, 1, 1, 1, 1,
];

/// Whether the byte may stand in a run: it is no blank, no quote and no mark.
#[inline(always)]
pub fn is_run(b: u8) -> bool
    ensures value { result ≡ is_run b }
{
    RUNS[usize::from(b)] == 1
}

/// How many characters of scan data stand first.
fn data_len(bytes: &[u8]) -> usize
    ensures within { result ≤ length bytes.now }
    ensures run { prefix_len is_run bytes.now ≡ result + prefix_len is_run (drop result bytes.now) }
{
    match any_byte_outside(bytes, b"01NLHX".as_slice()) {
        Some(before) => before,
        None => bytes.len(),
    }
}

/// The same, which is only looked for where one stands first: of such characters long runs are.
#[inline(always)]
fn front_len(bytes: &[u8]) -> usize
    ensures within { result ≤ length bytes.now }
    ensures run { prefix_len is_run bytes.now ≡ result + prefix_len is_run (drop result bytes.now) }
{
    match bytes {
        [b'0', ..] | [b'1', ..] | [b'N', ..] => data_len(bytes),
        [b'L', ..] | [b'H', ..] | [b'X', ..] => data_len(bytes),
        _ => 0,
    }
}

/// How many bytes of a run stand first, one after the other.
fn each_len(bytes: &[u8]) -> usize
    ensures value { result ≡ prefix_len is_run bytes.now }
    ensures within { result ≤ length bytes.now }
{
    bytes.iter().take_while(|b| is_run(**b)).count()
}

/// How many bytes of a run stand first.
pub fn run_len(bytes: &[u8]) -> usize
    ensures value { result ≡ prefix_len is_run bytes.now }
    ensures within { result ≤ length bytes.now }
{
    let front = front_len(bytes);
    front + each_len(&bytes[front..])
}
