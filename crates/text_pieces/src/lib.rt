// A text of a bound length, built piece by piece: words, numbers in upper-case hex, and both with LF.
#![tactic(auto)]

ghost use Rattle.std.specs.Prelude.{◌≡◌, ℕ, List, [], ◌∷◌, ◌++◌, ◌+◌, ◌%◌, ◌≤◌, length, take};
ghost use Rattle.line_forms.specs.Hex.{up_of, hex_of};
ghost use Rattle.text_pieces.specs.Pieces.{end};

use std::marker::Model;

// At most N bytes, with room for the others.
#[derive(Drop)]
pub struct Text<const N: usize> {
    bytes: [u8; N],
    len: usize,
}

// It is seen as what is put so far.
impl<const N: usize> Model for Text<N> {
    ghost Value = { List ℕ };

    ghost view = { λ s. take s.len s.bytes };

    ghost invariant = { λ s. s.len ≤ N };
}

// The last digit of n in upper-case hex.
#[tactic(auto, unfolding(line_forms::specs::Hex::up_of))]
pub fn digit(n: u32) -> u8
    ensures { result ≡ up_of (n % 16) }
{
    let d = n % 16;
    if d < 10 {
        return (48 + d) as u8;
    }
    (55 + d) as u8
}

impl<const N: usize> Text<N> {
    // Nothing yet.
    pub fn new() -> Self
        ensures { result ≡ [] }
    {
        Text {
            bytes: [0; N],
            len: 0,
        }
    }

    // What is put so far.
    pub fn as_slice(&self) -> &[u8]
        ensures value { result.now ≡ self.now }
        ensures fits { length result.now ≤ N }
    {
        &self.bytes[..self.len]
    }

    // It is empty again.
    pub fn clear(&mut self)
        ensures { self.new ≡ [] }
    {
        self.len = 0;
    }

    // One byte more.
    pub fn push(&mut self, b: u8)
        requires { length self.old + 1 ≤ N }
        ensures { self.new ≡ self.old ++ b ∷ [] }
    {
        self.bytes[self.len] = b;
        self.len += 1;
    }

    // The bytes of `t`.
    pub fn put(&mut self, t: &[u8])
        requires { length self.old + length t.now ≤ N }
        ensures put { self.new ≡ self.old ++ t.now }
        ensures long { length self.new ≡ length self.old + length t.now }
    {
        let end = self.len + t.len();
        let all = &mut self.bytes[..];
        all[self.len..end].copy_from_slice(t);
        self.len = end;
    }

    // K digits of v in upper-case hex.
    #[tactic(auto, using(crate::proofs::Hexed::last_digit))]
    pub fn put_hex<const K: usize>(&mut self, v: u32)
        requires room { length self.old + K ≤ N }
        requires digits { K ≤ 8 }
        ensures put { self.new ≡ self.old ++ hex_of K v }
        ensures long { length self.new ≡ length self.old + K }
    {
        let mut digits = [0; K];
        for i in 0..K {
            let place = K - 1 - i;
            digits[i] = digit(v >> (4 * place));
        }
        self.put(&digits);
    }

    // A text, two digits of x, LF.
    pub fn put_byte(&mut self, t: &[u8], x: u32)
        requires { length self.old + length t.now + 3 ≤ N }
        ensures put { self.new ≡ self.old ++ (t.now ++ (hex_of 2 x ++ end)) }
        ensures long { length self.new ≡ length self.old + length t.now + 3 }
    {
        self.put(t);
        self.put_hex::<2>(x);
        self.put(b"\n");
    }

    // A text, eight digits of x, LF. Both are three calls, each with a name that its callers' texts have.
    pub fn put_dword(&mut self, t: &[u8], x: u32)
        requires { length self.old + length t.now + 9 ≤ N }
        ensures put { self.new ≡ self.old ++ (t.now ++ (hex_of 8 x ++ end)) }
        ensures long { length self.new ≡ length self.old + length t.now + 9 }
    {
        self.put(t);
        self.put_hex::<8>(x);
        self.put(b"\n");
    }
}
