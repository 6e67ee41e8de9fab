// Punctuators (C99 6.4.6).
ghost use Rattle.std.specs.Prelude.{ℕ, ◌≡◌, ◌≤◌, ◌∷◌, length, map, IsTrue, nat_eq, List as Bytes};
ghost use Rattle.std.specs.List.{starts_with};
ghost use Rattle.po_lex.specs.PartKinds.{longest, signs};

/// The punctuators of C99 6.4.6, without `#`, `##` and the digraphs.
const SIGNS: [&[u8]; 46] = [
    b"[", b"]", b"(", b")", b"{", b"}", b".", b"->", b"++", b"--", b"&", b"*", b"+", b"-", b"~",
    b"!", b"/", b"%", b"<<", b">>", b"<", b">", b"<=", b">=", b"==", b"!=", b"^", b"|", b"&&",
    b"||", b"?", b":", b";", b"...", b"=", b"*=", b"/=", b"%=", b"+=", b"-=", b"<<=", b">>=",
    b"&=", b"^=", b"|=", b",",
];

// Those that begin with the same byte, where more than one does.
const DOTS: [&[u8]; 2] = [b".", b"..."];

const MINUSES: [&[u8]; 4] = [b"->", b"--", b"-", b"-="];

const PLUSES: [&[u8]; 3] = [b"++", b"+", b"+="];

const ANDS: [&[u8]; 3] = [b"&", b"&&", b"&="];

const STARS: [&[u8]; 2] = [b"*", b"*="];

const NOTS: [&[u8]; 2] = [b"!", b"!="];

const SLASHES: [&[u8]; 2] = [b"/", b"/="];

const PERCENTS: [&[u8]; 2] = [b"%", b"%="];

const LESSES: [&[u8]; 4] = [b"<<", b"<", b"<=", b"<<="];

const GREATERS: [&[u8]; 4] = [b">>", b">", b">=", b">>="];

const EQUALS: [&[u8]; 2] = [b"==", b"="];

const CARETS: [&[u8]; 2] = [b"^", b"^="];

const BARS: [&[u8]; 3] = [b"|", b"||", b"|="];

/// Whether bytes begin with a text. Most often their first bytes tell that they don't.
fn begins_with(bytes: &[u8], text: &[u8]) -> bool
    ensures { result ≡ starts_with nat_eq bytes.now text.now }
{
    if bytes.len() > 0 && text.len() > 0 && bytes[0] != text[0] {
        return false;
    }
    bytes.starts_with(text)
}

/// The length of the longest of these texts with which the bytes begin, 0 where they begin with none. Time linear
/// in the texts.
fn longest(texts: &[&[u8]], bytes: &[u8]) -> usize
    ensures value { result ≡ longest (map (λ t. t.now) texts.now) bytes.now }
    ensures within { result ≤ length bytes.now }
{
    let mut best = 0;
    for text in texts {
        if begins_with(bytes, text) && best < text.len() {
            best = text.len();
        }
    }
    best
}

/// Whether a byte is a punctuator with which no longer one begins.
fn is_lone(byte: u8) -> bool
    ensures { IsTrue result → (bytes : Bytes ℕ) → longest signs (byte ∷ bytes) ≡ 1 }
{
    match byte {
        b'(' => true,
        b')' => true,
        b',' => true,
        b';' => true,
        b'[' => true,
        b']' => true,
        b'{' => true,
        b'}' => true,
        b'~' => true,
        b'?' => true,
        b':' => true,
        _ => false,
    }
}

/// Punctuators among which the longest stands that begins with this byte.
fn signs_with(byte: u8) -> &'static [&'static [u8]]
    ensures { (bytes : Bytes ℕ) → longest (map (λ t. t.now) result.now) (byte ∷ bytes) ≡ longest signs (byte ∷ bytes) }
{
    match byte {
        b'.' => &DOTS,
        b'-' => &MINUSES,
        b'+' => &PLUSES,
        b'&' => &ANDS,
        b'*' => &STARS,
        b'!' => &NOTS,
        b'/' => &SLASHES,
        b'%' => &PERCENTS,
        b'<' => &LESSES,
        b'>' => &GREATERS,
        b'=' => &EQUALS,
        b'^' => &CARETS,
        b'|' => &BARS,
        _ => &SIGNS,
    }
}

/// The length of the longest punctuator with which the bytes begin, 0 where they begin with none. The first byte tells
/// among which it is.
pub(crate) fn sign_length(bytes: &[u8]) -> usize
    ensures value { result ≡ longest signs bytes.now }
    ensures within { result ≤ length bytes.now }
{
    if bytes.len() == 0 {
        return longest(&SIGNS, bytes);
    }
    if is_lone(bytes[0]) {
        return 1;
    }
    longest(signs_with(bytes[0]), bytes)
}
